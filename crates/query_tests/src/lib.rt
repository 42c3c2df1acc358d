//! Worked examples of reading: a query in running order, a fault by its own value, each worked out by hand from docs/queries.md.
#![tactic(auto)]

#[cfg(test)]
mod tests {
    use extents::Operator;
    use query::{Action, Leaf, Query, ReadFault, TokenFault, read};
    use std::alloc::{AllocError, Global};
    use std::test::Fail;

    // 32 leaves: the last `a` is at 62.
    const FULL: &[u8] = b"a&a&a&a&a&a&a&a&a&a&a&a&a&a&a&a&a&a&a&a&a&a&a&a&a&a&a&a&a&a&a&a";

    // The sign that an operator is written with.
    fn sign(operator: Operator) -> &'static str {
        match operator {
            Operator::ContainedIn => "<",
            Operator::NotContainedIn => "!<",
            Operator::Containing => ">",
            Operator::NotContaining => "!>",
            Operator::BothOf => "&",
            Operator::OneOf => "|",
            Operator::FollowedBy => ";",
        }
    }

    // The query's steps in running order, each as it is written, with its place.
    fn put_steps(out: &mut String, query: &Query<'_>) -> Result<(), AllocError> {
        for step in query.steps() {
            if !out.is_empty() {
                out.push(' ')?;
            }
            match step.action {
                Action::Leaf(Leaf::Name(name)) => {
                    out.push_str(str::from_utf8(name).unwrap_or("no text"))?;
                }
                Action::Leaf(Leaf::Windows(width)) => write!(out, "#{width}")?,
                Action::Leaf(Leaf::Runs(degrees)) => write!(out, "@{degrees}")?,
                Action::Apply(operator) => out.push_str(sign(operator))?,
            }
            write!(out, ":{}", step.place)?;
        }
        Ok(())
    }

    // What the text is read as: its steps, or its refusal as it is printed.
    fn reading(alloc: Global, text: &[u8]) -> Result<String, AllocError> {
        let mut out = String::new(alloc);
        match read(text) {
            Ok(query) => put_steps(&mut out, &query)?,
            Err(fault) => write!(out, "{fault}")?,
        }
        Ok(out)
    }

    // The text's fault, if it has one.
    fn fault(text: &[u8]) -> Option<ReadFault> {
        read(text).err()
    }

    fn unknown(place: usize) -> Option<ReadFault> {
        Some(ReadFault::Token(TokenFault::Unknown(place)))
    }

    fn over(place: usize) -> Option<ReadFault> {
        Some(ReadFault::Token(TokenFault::Over(place)))
    }

    #[test]
    fn running_order(rt: HostRuntime) -> Result<(), Fail> {
        let heap = rt.alloc();
        assert_eq!(rt; reading(heap, b"alarm")?.as_str(), "alarm:0");
        assert_eq!(rt; reading(heap, b"a<b")?.as_str(), "a:0 b:2 <:1");
        assert_eq!(rt; reading(heap, b" ( (a)) ")?.as_str(), "a:4");
        assert_eq!(rt;
            reading(heap, b"a ; b > c")?.as_str(),
            "a:0 b:4 ;:2 c:8 >:6"
        );
        assert_eq!(rt;
            reading(heap, b"a ; (b > c)")?.as_str(),
            "a:0 b:5 c:9 >:7 ;:2"
        );
        assert_eq!(rt;
            reading(heap, b"alarm !< cut | (#5 ; @1590)")?.as_str(),
            "alarm:0 cut:9 !<:6 #5:16 @1590:21 ;:19 |:13"
        );
        assert_eq!(rt;
            reading(heap, b"a<b !<c>d !>e&f|g;h")?.as_str(),
            "a:0 b:2 <:1 c:6 !<:4 d:8 >:7 e:12 !>:10 f:14 &:13 g:16 |:15 h:18 ;:17"
        );
        Ok(())
    }

    #[test]
    fn a_query_that_was_copied_is_used_again(rt: HostRuntime) {
        let query = read(b"a ; (b > c)").ok();
        let copied = query;
        assert_eq!(rt; copied, query);
        assert_ne!(rt; copied, read(b"a ; b > c").ok());
    }

    #[test]
    fn a_refusal_is_printed_by_number_and_place(rt: HostRuntime) -> Result<(), Fail> {
        let heap = rt.alloc();
        assert_eq!(rt; reading(heap, b"a !")?.as_str(), "refused 15 at 2");
        assert_eq!(rt; reading(heap, b"@3001")?.as_str(), "refused 16 at 0");
        assert_eq!(rt; reading(heap, b"")?.as_str(), "refused 17 at 0");
        assert_eq!(rt;
            reading(heap, b"(((((((((((((((((")?.as_str(),
            "refused 18 at 16"
        );
        assert_eq!(rt;
            reading(
                heap,
                b"a&a&a&a&a&a&a&a&a&a&a&a&a&a&a&a&a&a&a&a&a&a&a&a&a&a&a&a&a&a&a&a&a"
            )?
            .as_str(),
            "refused 19 at 64"
        );
        Ok(())
    }

    #[test]
    fn bytes_that_begin_no_token(rt: HostRuntime) {
        assert_eq!(rt; fault(b"!"), unknown(0));
        assert_eq!(rt; fault(b"a !"), unknown(2));
        assert_eq!(rt; fault(b"a !&b"), unknown(2));
        assert_eq!(rt; fault(b"#"), unknown(0));
        assert_eq!(rt; fault(b"@"), unknown(0));
        assert_eq!(rt; fault(b"@ 5"), unknown(0));
        assert_eq!(rt; fault(&[0]), unknown(0));
        assert_eq!(rt; fault(&[97, 255]), unknown(1));
    }

    #[test]
    fn limits_of_tokens(rt: HostRuntime) -> Result<(), Fail> {
        let heap = rt.alloc();
        assert_eq!(rt; reading(heap, b"@3000")?.as_str(), "@3000:0");
        assert_eq!(rt; fault(b"@3001"), over(0));
        assert_eq!(rt; reading(heap, b"#1073741824")?.as_str(), "#1073741824:0");
        assert_eq!(rt; fault(b"#1073741825"), over(0));
        assert_eq!(rt;
            fault(b"#1000000000000000000000000000000000000000"),
            over(0)
        );
        assert_eq!(rt;
            reading(heap, b"#0000000000000000000000000000000000000005")?.as_str(),
            "#5:0"
        );
        assert_eq!(rt;
            reading(heap, b"abcdefghijklmnop")?.as_str(),
            "abcdefghijklmnop:0"
        );
        assert_eq!(rt; fault(b"abcdefghijklmnopq"), over(0));
        Ok(())
    }

    #[test]
    fn tokens_out_of_place(rt: HostRuntime) {
        assert_eq!(rt;
            fault(b"a&a&a&a&a&a&a&a&a&a&a&a&a&a&a&a&a&a&a&a&a&a&a&a&a&a&a&a&a&a&a&a&)"),
            Some(ReadFault::Unexpected(64))
        );
        assert_eq!(rt; fault(b""), Some(ReadFault::Unexpected(0)));
        assert_eq!(rt; fault(b"   "), Some(ReadFault::Unexpected(3)));
        assert_eq!(rt; fault(b"a b"), Some(ReadFault::Unexpected(2)));
        assert_eq!(rt; fault(b"#5alarm"), Some(ReadFault::Unexpected(2)));
        assert_eq!(rt; fault(b"a &"), Some(ReadFault::Unexpected(3)));
        assert_eq!(rt; fault(b"a)"), Some(ReadFault::Unexpected(1)));
        assert_eq!(rt; fault(b"(a"), Some(ReadFault::Unexpected(2)));
        assert_eq!(rt; fault(b"()"), Some(ReadFault::Unexpected(1)));
    }

    #[test]
    fn limits_of_queries(rt: HostRuntime) -> Result<(), Fail> {
        let heap = rt.alloc();
        assert_eq!(rt;
            reading(heap, b"((((((((((((((((a))))))))))))))))")?.as_str(),
            "a:16"
        );
        assert_eq!(rt;
            fault(b"(((((((((((((((((a)))))))))))))))))"),
            Some(ReadFault::TooDeep(16))
        );
        let mut steps = String::new(heap);
        steps.push_str("a:0")?;
        for i in 1..32u8 {
            write!(steps, " a:{} &:{}", 2 * i, 2 * i - 1)?;
        }
        assert_eq!(rt; reading(heap, FULL)?, steps);
        assert_eq!(rt;
            fault(b"a&a&a&a&a&a&a&a&a&a&a&a&a&a&a&a&a&a&a&a&a&a&a&a&a&a&a&a&a&a&a&a&a"),
            Some(ReadFault::TooMany(64))
        );
        Ok(())
    }

    #[test]
    fn of_two_faults_at_a_token_the_lower_number(rt: HostRuntime) {
        // A name that is too long, where no name may stand, and as the 33rd leaf.
        assert_eq!(rt; fault(b"a abcdefghijklmnopq"), over(2));
        assert_eq!(rt;
            fault(
                b"a&a&a&a&a&a&a&a&a&a&a&a&a&a&a&a&a&a&a&a&a&a&a&a&a&a&a&a&a&a&a&a&abcdefghijklmnopq"
            ),
            over(64)
        );
        // A 17th open bracket, and a 33rd leaf, where none may stand.
        assert_eq!(rt;
            fault(b"((((((((((((((((a("),
            Some(ReadFault::Unexpected(17))
        );
        assert_eq!(rt;
            fault(b"a&a&a&a&a&a&a&a&a&a&a&a&a&a&a&a&a&a&a&a&a&a&a&a&a&a&a&a&a&a&a&a a"),
            Some(ReadFault::Unexpected(64))
        );
    }
}
