// Tests of the forms of the language: which form a term is, or that it is none.
#![tactic(auto)]

#[cfg(test)]
mod tests {
    use forms::{Form, FormFault, form_in, form_of};
    use std::alloc::Global;
    use std::test::Fail;
    use text::{Forms, Token};

    #[derive(Clone, Copy, Debug, PartialEq)]
    enum Kind {
        Declares,
        Opens,
        Rules,
    }

    // Which form it is, or why it is none.
    type Found = Result<Kind, FormFault>;

    fn kind_of(form: Form) -> Kind {
        match form {
            Form::Declares(_) => Kind::Declares,
            Form::Opens(_) => Kind::Opens,
            Form::Rules(_) => Kind::Rules,
        }
    }

    fn kind_found(outcome: Result<Form, FormFault>) -> Found {
        Ok(kind_of(outcome?))
    }

    // What the one term of a text is, and what its tokens are; nothing where the text has not one term.
    fn kinds(heap: Global, text: &str) -> Option<(Found, Found)> {
        let mut forms = Forms::new(heap);
        forms.read(heap, text.as_bytes()).ok()?;
        let mut terms = forms.terms();
        let term = terms.next()?;
        if !terms.is_empty() {
            return None;
        }
        let by_term = kind_found(form_in(heap, term));
        let by_tokens = kind_found(form_of(heap, term.tokens()));
        Some((by_term, by_tokens))
    }

    // The first of some texts that is something else.
    fn other<'t>(heap: Global, texts: &[&'t str], wanted: Found) -> Option<&'t str> {
        let wanted = Some((wanted, wanted));
        texts
            .iter()
            .copied()
            .find(|text| kinds(heap, text) != wanted)
    }

    #[test]
    fn declarations(rt: HostRuntime) {
        let texts = [
            "(role a)",
            "(role (a b))",
            "(role (a (b c) d))",
            // keywords mean nothing inside a term
            "(role role)",
            "(role terminal)",
            "(role (not or))",
            "(role (a <=))",
        ];
        assert_eq!(rt; other(rt.alloc(), &texts, Ok(Kind::Declares)), None);
    }

    #[test]
    fn openings(rt: HostRuntime) {
        let texts = [
            "(init f)",
            "(init (on a b))",
            "(init true)",
            "(init (init f))",
        ];
        assert_eq!(rt; other(rt.alloc(), &texts, Ok(Kind::Opens)), None);
    }

    #[test]
    fn rules_of_a_head_alone(rt: HostRuntime) {
        let texts = [
            "(next f)",
            "(next (on a b))",
            "(legal r m)",
            "(legal (r 1) (m 2))",
            "(sees r e)",
            "(goal r 0)",
            "(goal r 7)",
            "(goal r 10)",
            "(goal r 99)",
            "(goal r 100)",
            "(goal (r 1) 50)",
            "terminal",
            // facts
            "p",
            "7",
            "-",
            "(p x)",
            "(p x y)",
            "(p (q x) y)",
            "(p role)",
            "(p (not q))",
            // words that are close to keywords
            "roles",
            "rol",
            "Role",
            "TRUE",
            "=",
            "<",
            "<=>",
            "(roles a)",
            "(Init f)",
            "(terminals x)",
        ];
        assert_eq!(rt; other(rt.alloc(), &texts, Ok(Kind::Rules)), None);
    }

    #[test]
    fn rules_with_a_body(rt: HostRuntime) {
        let texts = [
            "(<= p q)",
            "(<= p p)",
            "(<= (p x) (q x y) r)",
            "(<= (next f) (true f))",
            "(<= (legal r m) (true f) (not (true g)))",
            "(<= (sees r e) (does r m))",
            "(<= terminal (goal r 7))",
            "(<= (goal r 100) terminal)",
            // atoms
            "(<= p (role r))",
            "(<= p (does r m))",
            "(<= p (legal r m))",
            "(<= p (knows r q))",
            "(<= p (knows r (q role)))",
            "(<= p (knows role q))",
            "(<= p (knows q))",
            "(<= p (knows (q x)))",
            // other literals
            "(<= p (not q))",
            "(<= p (not terminal))",
            "(<= p (not (knows r q)))",
            "(<= p (distinct a b))",
            "(<= p (distinct a a))",
            "(<= p (distinct (a b) not))",
            // alternatives
            "(<= p (or q))",
            "(<= p (or q r))",
            "(<= p (or (distinct a b) (not q)))",
            "(<= p q (or r (true f) (not s)) (not u))",
        ];
        assert_eq!(rt; other(rt.alloc(), &texts, Ok(Kind::Rules)), None);
    }

    #[test]
    fn broken_heads(rt: HostRuntime) {
        let texts = [
            // pairs that are no term
            "(a)",
            "((a) b)",
            "((a b) c)",
            "((a b))",
            "(p (a))",
            "(p (role))",
            "(p x ((a) b))",
            "(role (a))",
            "(init ((a b) c))",
            "(next (f))",
            "(legal (r) m)",
            "(sees r (e))",
            "(goal (r) 5)",
            // keywords alone
            "role",
            "init",
            "true",
            "next",
            "legal",
            "does",
            "sees",
            "goal",
            "knows",
            "distinct",
            "not",
            "or",
            "<=",
            // keywords that no head begins with
            "(terminal x)",
            "(true f)",
            "(does r m)",
            "(knows r p)",
            "(knows p)",
            "(distinct a b)",
            "(not p)",
            "(or p q)",
            // too few terms or too many
            "(role)",
            "(role a b)",
            "(init)",
            "(init f g)",
            "(next)",
            "(next a b)",
            "(legal r)",
            "(legal r m n)",
            "(sees r)",
            "(sees r e e)",
            "(goal r)",
            "(goal r 5 5)",
            "(terminal)",
            // goal values
            "(goal r 00)",
            "(goal r 07)",
            "(goal r 007)",
            "(goal r 101)",
            "(goal r 110)",
            "(goal r 200)",
            "(goal r 1000)",
            "(goal r -1)",
            "(goal r +1)",
            "(goal r 1a)",
            "(goal r /)",
            "(goal r :)",
            "(goal r a)",
            "(goal r (5 5))",
        ];
        assert_eq!(rt; other(rt.alloc(), &texts, Err(FormFault::Broken)), None);
    }

    #[test]
    fn broken_rules(rt: HostRuntime) {
        let texts = [
            // no head or no parts
            "(<=)",
            "(<= p)",
            "(<= (next f))",
            // heads
            "(<= (not p) q)",
            "(<= (or p) q)",
            "(<= (role a) q)",
            "(<= (init f) q)",
            "(<= (true f) q)",
            "(<= (does r m) q)",
            "(<= (knows p) q)",
            "(<= (knows r p) q)",
            "(<= (distinct a b) q)",
            "(<= (<= p q) r)",
            "(<= (p) q)",
            "(<= role q)",
            "(<= (goal r 101) q)",
            // what may not stand in a body
            "(<= p (next f))",
            "(<= p (sees r e))",
            "(<= p (init f))",
            "(<= p (<= q r))",
            "(<= p (terminal x))",
            "(<= p role)",
            "(<= p or)",
            "(<= p (q))",
            "(<= p ((q x) y))",
            "(<= p q (r))",
            "(<= p q (next f) r)",
            // literals in literals
            "(<= p (not (not q)))",
            "(<= p (not (distinct a b)))",
            "(<= p (not (or q r)))",
            "(<= p (or))",
            "(<= p (or (or q r)))",
            "(<= p (or q (next f)))",
            "(<= p (or q (r)))",
            // too few terms or too many
            "(<= p (not))",
            "(<= p (not q r))",
            "(<= p (role a b))",
            "(<= p (true a b))",
            "(<= p (does r))",
            "(<= p (legal r m n))",
            "(<= p (goal r))",
            "(<= p (distinct a))",
            "(<= p (distinct a b c))",
            "(<= p (knows))",
            "(<= p (knows a b c))",
            // terms in literals
            "(<= p (true (f)))",
            "(<= p (does r (m)))",
            "(<= p (distinct a (b)))",
            "(<= p (goal r 007))",
            // known facts begin with no keyword
            "(<= p (knows role))",
            "(<= p (knows (true f)))",
            "(<= p (knows (q)))",
            "(<= p (knows r terminal))",
            "(<= p (knows r (true f)))",
            "(<= p (knows r (knows q)))",
            "(<= p (knows (r) q))",
        ];
        assert_eq!(rt; other(rt.alloc(), &texts, Err(FormFault::Broken)), None);
    }

    #[test]
    fn tokens_of_some_terms_or_none(rt: HostRuntime) {
        let texts = [
            "",
            "p q",
            "(role a) (role a)",
            "(<= p q) r",
            "p (p x) (p x y)",
        ];
        let mut forms = Forms::new(rt.alloc());
        for text in texts {
            assert!(rt; forms.read(rt.alloc(), text.as_bytes()).is_ok(), "{}", text);
            let found = kind_found(form_of(rt.alloc(), forms.tokens()));
            assert_eq!(rt; found, Err(FormFault::Broken), "{}", text);
        }
    }

    #[test]
    fn tokens_that_are_no_text(rt: HostRuntime) {
        let open = Token::Open { at: 0 };
        let word = Token::Word {
            at: 1,
            spelling: b"p",
        };
        let close = Token::Close;
        let cases: [&[Token]; 9] = [
            &[open],
            &[close],
            &[open, close],
            &[close, open],
            &[open, word],
            &[word, close],
            &[open, word, word],
            &[open, word, word, close, close],
            &[open, open, word, word, close],
        ];
        for (i, tokens) in cases.iter().enumerate() {
            assert_eq!(rt;
                kind_found(form_of(rt.alloc(), *tokens)),
                Err(FormFault::Broken),
                "{}",
                i
            );
        }
        let fact = [open, word, word, close];
        assert_eq!(rt; kind_found(form_of(rt.alloc(), &fact)), Ok(Kind::Rules));
    }

    #[test]
    fn a_fault_says_what_is_wrong(rt: HostRuntime) -> Result<(), Fail> {
        let said = format!(in rt.alloc(); "{}", FormFault::Broken)?;
        assert!(rt; said.as_str() == "this is no form");
        Ok(())
    }
}
