//! How a refusal is told: by its number and, where it is one of a text, by the place of the token at fault.
#![tactic(auto)]

ghost use Rattle.std.specs.Prelude.{◌≡◌, ◌++◌, OnOk, string_bytes};

use std::alloc::AllocError;
use std::fmt;

/// A refusal as a person sees it. Each enum of refusals says which one each of its cases is.
#[derive(Clone, Copy, Debug, PartialEq, Eq)]
pub struct Refusal {
    /// The number of the reason; docs/refusals.md lists them all.
    pub number: u8,
    /// Where the token at fault begins, in bytes from the text's start; none where there is no text.
    pub place: Option<usize>,
}

impl Refusal {
    ghost use Rattle.std.specs.Prelude.{Some, None};
    ghost use Rattle.refusals.specs.Refusals.{text_of};

    /// A refusal with no place.
    pub fn plain(number: u8) -> Refusal
        ensures { result ≡ record { number = number; place = None } }
    {
        Refusal {
            number,
            place: None,
        }
    }

    /// A refusal of the token at `place`, in bytes.
    pub fn at(number: u8, place: usize) -> Refusal
        ensures { result ≡ record { number = number; place = Some place } }
    {
        Refusal {
            number,
            place: Some(place),
        }
    }

    /// Adds the refusal's text to `out`: `refused N`, or `refused N at P`, with no newline.
    ///
    /// # Errors
    /// There is no memory for the text; `out` then holds some front of it.
    pub fn put(self, out: &mut String) -> Result<(), AllocError>
        ensures text { OnOk result (string_bytes out.new ≡ string_bytes out.old ++ text_of self) }
        ensures printed { ⟦<Self as fmt::Display>⟧.output self ≡ Some (text_of self) }
    {
        write!(out, "{self}")
    }
}

impl fmt::Display for Refusal {
    ghost use Rattle.std.specs.Prelude.{Some};
    ghost use Rattle.refusals.specs.Refusals.{text_of};

    ghost output = { λ r. Some (text_of r) };

    fn fmt<W: fmt::Write>(&self, f: &mut fmt::Formatter<W>) -> fmt::Result {
        match self.place {
            Some(place) => write!(f, "refused {} at {place}", self.number),
            None => write!(f, "refused {}", self.number),
        }
    }
}

#[cfg(test)]
mod tests {
    use super::*;
    use std::test::Fail;

    #[test]
    fn put_adds_the_text(rt: HostRuntime) -> Result<(), Fail> {
        let mut out = String::new(rt.alloc());
        Refusal::plain(23).put(&mut out)?;
        out.push('\n')?;
        Refusal::at(17, 5).put(&mut out)?;
        assert_eq!(rt; out.as_str(), "refused 23\nrefused 17 at 5");
        Ok(())
    }
}
