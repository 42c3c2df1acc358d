//! A file as the place of an index.
use super::place::Place;
use std::fs::{File, OpenFile};
use std::io::{Error, ErrorKind, Write};
use std::{fs, io};

/// The file at a path. The bytes are gathered in a file beside it, which then takes its place in one step.
#[derive(Drop)]
pub struct Target<'a> {
    rt: &'a HostRuntime,
    path: &'a str,
    partial: String,
}

impl<'a> Target<'a> {
    /// The file at the path, and the one beside it with `.partial` after its name.
    ///
    /// # Errors
    /// The file is there and no regular file, or the one beside it is there already, or there is no memory.
    pub(crate) fn at(rt: &'a HostRuntime, path: &'a str) -> io::Result<Target<'a>> {
        let partial = format!(in rt.alloc(); "{path}.partial")?;
        let target = Target { rt, path, partial };
        target.check()?;
        Ok(target)
    }

    // Refuses what would be lost: what is no regular file, and a file that someone left beside it.
    fn check(&self) -> io::Result<()> {
        if let Ok(found) = fs::symlink_metadata(self.rt, self.path)
            && !found.is_file()
        {
            return Err(Error::new(ErrorKind::InvalidInput, "it is no regular file"));
        }
        if fs::symlink_metadata(self.rt, self.partial.as_str()).is_ok() {
            return Err(Error::new(
                ErrorKind::AlreadyExists,
                "there is a .partial file beside it",
            ));
        }
        Ok(())
    }

    // Writes all bytes to the new file beside the place, to the disk, and moves it there.
    fn fill_and_move<F: Write + OpenFile>(&self, file: &mut F, index: &[u8]) -> io::Result<()> {
        file.write_all(index)?;
        file.sync_all()?;
        fs::rename(self.rt, self.partial.as_str(), self.path)
    }
}

impl Place for Target<'_> {
    fn put(&mut self, index: &[u8]) -> io::Result<()> {
        self.check()?;
        let mut file = File::create_new(self.rt, self.partial.as_str())?;
        let put = self.fill_and_move(&mut file, index);
        if put.is_err() {
            let _ = fs::remove_file(self.rt, self.partial.as_str());
        }
        put
    }
}
