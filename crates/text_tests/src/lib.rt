// Tests of the text layer: what is refused and where, the tokens of a text, and texts written out again.
#![tactic(auto)]

#[cfg(test)]
mod tests {
    use std::alloc::{AllocError, Global};
    use std::test::Fail;
    use text::{Forms, Parts, Term, Terms, TextFault, Token, term_len, write};

    // The number and place of a text's refusal, or nothing where it is read.
    fn refused(heap: Global, text: &[u8]) -> Result<Option<(u8, usize)>, AllocError> {
        let mut forms = Forms::new(heap);
        let Err(fault) = forms.read(heap, text) else {
            return Ok(None);
        };
        let refusal = fault.refusal()?;
        Ok(Some((refusal.number, refusal.place)))
    }

    // A text of `len` bytes, at least one: the first, then spaces.
    fn spaces_after(heap: Global, first: u8, len: usize) -> Result<Vec<u8>, AllocError> {
        let mut text = Vec::new(heap);
        text.push(first)?;
        text.resize(len, b' ')?;
        Ok(text)
    }

    // The text reads as these tokens, places aside.
    fn reads_as(heap: Global, text: &[u8], tokens: &[Token]) -> bool {
        let mut forms = Forms::new(heap);
        let read = forms.read(heap, text).is_ok();
        let found = forms.tokens();
        read && found.len() == tokens.len() && found.iter().zip(tokens).all(|(t, u)| t.is_like(*u))
    }

    // The first case whose text is not read, or whose tokens come to another number.
    fn other<F: Fn(&[Token]) -> usize>(
        heap: Global,
        cases: &[(&[u8], usize)],
        number: F,
    ) -> Option<usize>
        requires { F.IsAlwaysCallable number }
    {
        let mut forms = Forms::new(heap);
        for (i, case) in cases.iter().enumerate() {
            let (text, wanted) = *case;
            if forms.read(heap, text).is_err() || number(forms.tokens()) != wanted {
                return Some(i);
            }
        }
        None
    }

    // Where terms start.
    fn places(heap: Global, terms: Terms) -> Result<Vec<usize>, AllocError> {
        terms.map(|t| t.place()).collect(heap)
    }

    // The forms of a text are written as these bytes, and the bytes read as the same tokens.
    fn written_as(heap: Global, text: &[u8], written: &[u8]) -> Result<bool, AllocError> {
        let mut forms = Forms::new(heap);
        let read = forms.read(heap, text).is_ok();
        let mut out = Vec::new(heap);
        write(forms.tokens(), &mut out)?;
        Ok(read && out.as_slice() == written && reads_as(heap, out.as_slice(), forms.tokens()))
    }

    #[test]
    fn refusals(rt: HostRuntime) -> Result<(), Fail> {
        let cases: [(&[u8], u8, usize); 34] = [
            // odd bytes
            (b"\0", 2, 0),
            (b"a\x08", 2, 1),
            (b"a\x0b", 2, 1),
            (b"(a\x0cb)", 2, 2),
            (b" \x0e", 2, 1),
            (b"a \x1f", 2, 2),
            (b"(a \x7f)", 2, 3),
            (b"ab\x80", 2, 2),
            (b";c\n\xff", 2, 3),
            // words that start with a question mark
            (b"?", 3, 0),
            (b"(a ?x)", 3, 3),
            (b"(?x)", 3, 1),
            (b"a;c\n?x", 3, 4),
            // brackets that nothing opened, and empty pairs
            (b")", 4, 0),
            (b"a)", 4, 1),
            (b"(a))", 4, 3),
            (b"()", 4, 1),
            (b"( \t\r\n)", 4, 5),
            (b"(;a\n)", 4, 4),
            (b"(a ())", 4, 4),
            // unclosed brackets
            (b"(", 4, 0),
            (b"(a (b", 4, 3),
            (b"(a (b) c", 4, 0),
            (b"(a ;)", 4, 0),
            (b"(a) (b (c) d", 4, 4),
            (b"((((((((", 4, 7),
            // the ninth open bracket
            (b"(((((((((", 5, 8),
            (b"a ((((((((;c\n(a", 5, 13),
            // of several faults, the first that is met
            (b"?\0", 3, 0),
            (b"\0?", 2, 0),
            (b") \0", 4, 0),
            (b"a\0?)", 2, 1),
            (b"(\0", 2, 1),
            (b"((((((((()", 5, 8),
        ];
        for (i, case) in cases.iter().enumerate() {
            let (text, number, at) = *case;
            assert_eq!(rt; refused(rt.alloc(), text)?, Some((number, at)), "{}", i);
        }
        Ok(())
    }

    #[test]
    fn counts_of_tokens(rt: HostRuntime) {
        let cases: [(&[u8], usize); 22] = [
            (b"", 0),
            (b" ", 0),
            (b" \t\r\n ", 0),
            (b"!", 1),
            (b"~", 1),
            (b"!a~", 1),
            (b"a?", 1),
            (b"a?b??", 1),
            (b"a\rb\r\nc", 3),
            (b"a(b)c", 5),
            (b"((((((((a))))))))", 17),
            (b"((((((((a) b) c) d) e) f) g) h)", 24),
            // comments
            (b";", 0),
            (b";;", 0),
            (b";a", 0),
            (b";\0\xc8\x7f\x0b()?;\n", 0),
            (b";\0\xc8\x7f\x0b()?;", 0),
            (b";a\nb", 1),
            (b";a\rb", 0),
            (b";a\r\nb", 1),
            (b"a;b\nc", 2),
            (b"(a;)\n)", 3),
        ];
        assert_eq!(rt; other(rt.alloc(), &cases, |tokens| tokens.len()), None);
    }

    #[test]
    fn longest_texts(rt: HostRuntime) -> Result<(), Fail> {
        let heap = rt.alloc();
        let longest = spaces_after(heap, b' ', 32768)?;
        let mut forms = Forms::new(heap);
        assert_eq!(rt; longest.len(), 32768);
        assert!(rt; forms.read(heap, longest.as_slice()).is_ok());
        assert!(rt; forms.tokens().is_empty());
        let cases: [(u8, usize, u8, usize); 4] = [
            (b' ', 32769, 1, 32768),
            (0, 32769, 1, 32768),
            (0, 32768, 2, 0),
            (b'(', 32768, 4, 0),
        ];
        for (i, case) in cases.iter().enumerate() {
            let (first, len, number, at) = *case;
            let text = spaces_after(heap, first, len)?;
            assert_eq!(rt;
                refused(heap, text.as_slice())?,
                Some((number, at)),
                "{}",
                i
            );
        }
        let mut last_odd = spaces_after(heap, b' ', 32767)?;
        last_odd.push(127)?;
        assert_eq!(rt; refused(heap, last_odd.as_slice())?, Some((2, 32767)));
        Ok(())
    }

    #[test]
    fn nothing_held_after_a_refusal(rt: HostRuntime) -> Result<(), Fail> {
        let heap = rt.alloc();
        let too_long = spaces_after(heap, b'a', 32769)?;
        let mut forms = Forms::new(heap);
        assert!(rt; forms.tokens().is_empty());
        let bad: [&[u8]; 5] = [b"(c d", b"a ?b", b"a (b) )", b"a \0", too_long.as_slice()];
        for (i, text) in bad.iter().enumerate() {
            assert!(rt; forms.read(heap, b"(a b)").is_ok(), "{}", i);
            assert_eq!(rt; forms.tokens().len(), 4, "{}", i);
            assert!(rt; forms.read(heap, *text).is_err(), "{}", i);
            assert!(rt; forms.tokens().is_empty(), "{}", i);
        }
        Ok(())
    }

    #[test]
    fn tokens_and_places(rt: HostRuntime) {
        let mut forms = Forms::new(rt.alloc());
        assert!(rt; forms.read(rt.alloc(), b"(ab  c?) ;(x\n\t(d)e;f").is_ok());
        let wanted = [
            Token::Open { at: 0 },
            Token::Word {
                at: 1,
                spelling: b"ab",
            },
            Token::Word {
                at: 5,
                spelling: b"c?",
            },
            Token::Close,
            Token::Open { at: 14 },
            Token::Word {
                at: 15,
                spelling: b"d",
            },
            Token::Close,
            Token::Word {
                at: 17,
                spelling: b"e",
            },
        ];
        assert_eq!(rt; forms.tokens(), wanted.as_slice());
    }

    #[test]
    fn forms_and_their_places(rt: HostRuntime) -> Result<(), Fail> {
        let heap = rt.alloc();
        let mut forms = Forms::new(heap);
        assert_eq!(rt; forms.terms().count(), 0);
        let cases: [(&[u8], &[usize]); 4] = [
            (b" ;a", &[]),
            (b" a", &[1]),
            (b"(a b)", &[0]),
            (b"a (b c) ;x\n((d))e", &[0, 2, 11, 16]),
        ];
        for (i, case) in cases.iter().enumerate() {
            let (text, wanted) = *case;
            assert!(rt; forms.read(heap, text).is_ok(), "{}", i);
            assert_eq!(rt; places(heap, forms.terms())?.as_slice(), wanted, "{}", i);
        }
        assert!(rt; forms.read(heap, b"a b)").is_err());
        assert_eq!(rt; forms.terms().count(), 0);
        Ok(())
    }

    #[test]
    fn parts_of_terms(rt: HostRuntime) -> Result<(), Fail> {
        let heap = rt.alloc();
        let mut forms = Forms::new(heap);
        assert!(rt; forms.read(heap, b"ab (c (d e) f)").is_ok());
        let mut terms = forms.terms();
        let Parts::Word(spelling) = terms.next().ok_or("a word")?.parts() else {
            return Err(Fail::from("a word"));
        };
        assert_eq!(rt; spelling, b"ab".as_slice());
        let Parts::Pair(inside) = terms.next().ok_or("a pair")?.parts() else {
            return Err(Fail::from("a pair"));
        };
        assert_eq!(rt; places(heap, inside)?.as_slice(), [4, 6, 12].as_slice());
        assert!(rt; terms.next().is_none());
        Ok(())
    }

    #[test]
    fn equal_terms(rt: HostRuntime) {
        let cases: [(&[u8], bool); 8] = [
            (b"a a", true),
            (b"(a(b))( a ;x\n (b ))", true),
            (b"a b", false),
            (b"ab a", false),
            (b"a (a)", false),
            (b"(a b) (a c)", false),
            (b"(a b) (a b c)", false),
            (b"((a) b) (a (b))", false),
        ];
        let mut forms = Forms::new(rt.alloc());
        for (i, case) in cases.iter().enumerate() {
            let (text, same) = *case;
            assert!(rt; forms.read(rt.alloc(), text).is_ok(), "{}", i);
            let mut terms = forms.terms();
            let (first, second) = (terms.next(), terms.next());
            assert!(rt; second.is_some() && terms.next().is_none(), "{}", i);
            assert_eq!(rt; first == second, same, "{}", i);
        }
    }

    #[test]
    fn terms_of_tokens(rt: HostRuntime) -> Result<(), Fail> {
        let heap = rt.alloc();
        let open = Token::Open { at: 0 };
        let word = Token::Word {
            at: 1,
            spelling: b"a",
        };
        let close = Token::Close;
        let balanced: [(&[Token], &[usize]); 4] = [
            (&[], &[]),
            (&[word, word], &[1, 1]),
            (&[word, open, word, close], &[1, 0]),
            (&[open, close], &[0]),
        ];
        for (i, case) in balanced.iter().enumerate() {
            let (tokens, starts) = *case;
            let terms = Terms::of(tokens).ok_or("terms")?;
            assert_eq!(rt; terms.is_empty(), starts.is_empty(), "{}", i);
            assert_eq!(rt; places(heap, terms)?.as_slice(), starts, "{}", i);
        }
        let unbalanced: [&[Token]; 4] = [&[close], &[open], &[open, close, close], &[close, open]];
        for (i, tokens) in unbalanced.iter().enumerate() {
            assert!(rt; Terms::of(*tokens).is_none(), "{}", i);
        }
        let mut forms = Forms::new(heap);
        assert!(rt; forms.read(heap, b"a (b (c)) d").is_ok());
        let terms = Terms::of(forms.tokens()).ok_or("terms")?;
        assert_eq!(rt; places(heap, terms)?.as_slice(), [0, 2, 10].as_slice());
        Ok(())
    }

    #[test]
    fn written_and_read_again(rt: HostRuntime) -> Result<(), Fail> {
        let cases: [(&[u8], &[u8]); 9] = [
            (b"", b""),
            (b" ;a", b""),
            (b"a", b"a"),
            (b"a\r\nb", b"a b"),
            (b"a;x\nb", b"a b"),
            (b"( a  b ) c ; x\nd", b"(a b)c d"),
            (b"a (b) (c d) e", b"a(b)(c d)e"),
            (b"( (a?b) ( ! ~ ) )", b"((a?b)(! ~))"),
            (b"((((((((a b))))))))", b"((((((((a b))))))))"),
        ];
        for (i, case) in cases.iter().enumerate() {
            let (text, written) = *case;
            assert!(rt; written_as(rt.alloc(), text, written)?, "{}", i);
        }
        Ok(())
    }

    #[test]
    fn written_after_what_is_there(rt: HostRuntime) -> Result<(), Fail> {
        let tokens = [
            Token::Word {
                at: 0,
                spelling: b"a",
            },
            Token::Word {
                at: 2,
                spelling: b"b",
            },
        ];
        let mut out = Vec::from_slice(rt.alloc(), b"x")?;
        write(&tokens, &mut out)?;
        assert_eq!(rt; out.as_slice(), b"xa b".as_slice());
        Ok(())
    }

    #[test]
    fn lengths_of_terms(rt: HostRuntime) {
        let cases: [(&[u8], usize); 6] = [
            (b"", 0),
            (b"a", 1),
            (b"a (b)", 1),
            (b"(a) b", 3),
            (b"((a)) b", 5),
            (b"(a (b c)) (d)", 7),
        ];
        assert_eq!(rt; other(rt.alloc(), &cases, |tokens| term_len(tokens)), None);
        assert_eq!(rt; term_len(&[Token::Close, Token::Close]), 1);
        assert_eq!(rt;
            term_len(&[Token::Open { at: 0 }, Token::Open { at: 1 }, Token::Close]),
            3
        );
    }

    #[test]
    fn terms_at_the_start(rt: HostRuntime) -> Result<(), Fail> {
        let open = Token::Open { at: 0 };
        let word = Token::Word {
            at: 1,
            spelling: b"a",
        };
        let close = Token::Close;
        let begun: [(&[Token], usize, usize); 5] = [
            (&[word], 1, 0),
            (&[word, close], 1, 1),
            (&[open, word, close, word, open], 3, 2),
            (&[open, open, close, word, close, close], 5, 1),
            (&[open, close, open, word, close], 2, 3),
        ];
        for (i, case) in begun.iter().enumerate() {
            let (tokens, len, others) = *case;
            let (term, rest) = Term::first_of(tokens).ok_or("a term")?;
            assert_eq!(rt; (term.tokens().len(), rest.len()), (len, others), "{}", i);
        }
        let unbegun: [&[Token]; 4] = [&[], &[open, word], &[open, open, close], &[close, word]];
        for (i, tokens) in unbegun.iter().enumerate() {
            assert!(rt; Term::first_of(*tokens).is_none(), "{}", i);
        }
        Ok(())
    }

    #[test]
    fn faults_say_what_to_mend(rt: HostRuntime) -> Result<(), Fail> {
        let fault = TextFault::Variable { at: 5 };
        let said = format!(in rt.alloc(); "{fault}")?;
        assert!(rt; said.as_str() == "3 at byte 5 of the text: a ground text has no variables");
        Ok(())
    }
}
