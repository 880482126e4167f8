//! A cursor over the tokens of a text, which finds each as it is reached.

ghost use Rattle.std.specs.Prelude.{◌≡◌};
ghost use Rattle.im_sqlparse.specs.Input as spec;
ghost use Rattle.im_sqlparse.specs.Input.{ReadsTokens};

use crate::errors::{ParseError, SqlSyntax, SyntaxKind};
use crate::kinds::Kind;
use crate::lex;
use crate::lex::Token;
use std::marker::Model;

/// A cursor. A clause sees how long the whole text is, and what stands behind the last token that was taken.
#[derive(Drop)]
pub struct Tokens<'a> {
    whole: usize,
    text: &'a [u8],
    // The text from the next token on, and that token.
    ahead: &'a [u8],
    token: Token,
}

impl<'a> Model for Tokens<'a> {
    ghost use Rattle.im_sqlparse.specs.Input.{Input, input_code};

    ghost Value = { Input };

    ghost coded = { input_code };

    ghost use Rattle.im_sqlparse.specs.Cursor.{input_of, IsReady};

    ghost view = { input_of };

    ghost invariant = { IsReady };
}

impl<'a> Tokens<'a> {
    /// A cursor before the first token.
    pub fn new(text: &'a [u8]) -> Tokens<'a>
        ensures { result ≡ spec.start_of text.now }
    {
        let ahead = lex::skip(text);
        Tokens {
            whole: text.len(),
            text,
            ahead,
            token: lex::token(ahead),
        }
    }

    /// The next token's kind.
    #[tactic(auto, unfolding(crate::specs::Input::kind))]
    pub fn peek(&self) -> Kind
        ensures { result ≡ spec.kind self.now }
    {
        self.token.0
    }

    /// How many octets there are from the next token on.
    #[tactic(auto, unfolding(crate::specs::Input::left))]
    pub fn left(&self) -> usize
        ensures { result ≡ spec.left self.now }
    {
        self.ahead.len()
    }

    /// The place of the next token's first octet, or the text's length at its end.
    #[tactic(auto, unfolding(crate::specs::Input::place, crate::specs::Input::left))]
    pub fn place(&self) -> usize
        ensures { result ≡ spec.place self.now }
    {
        self.whole - self.ahead.len()
    }

    /// The next token's octets.
    #[tactic(auto, unfolding(crate::specs::Input::spelling))]
    pub fn spelling(&self) -> &'a [u8]
        ensures { result.now ≡ spec.spelling self.now }
    {
        &self.ahead[..self.token.1]
    }

    /// A fault at the next token.
    #[tactic(auto, unfolding(crate::specs::Input::fault_at))]
    pub fn fault(&self, kind: SyntaxKind) -> ParseError
        ensures { result ≡ ParseError.Syntax (spec.fault_at kind self.now) }
    {
        ParseError::Syntax(SqlSyntax {
            at: self.place(),
            kind,
        })
    }

    /// Why the next token can't follow.
    #[tactic(auto, unfolding(crate::specs::Input::refusal))]
    pub fn refuse(&self) -> ParseError
        ensures { result ≡ ParseError.Syntax (spec.refusal self.now) }
    {
        if lex::same_kind(self.peek(), Kind::Bad) {
            self.fault(SyntaxKind::Token)
        } else {
            self.fault(SyntaxKind::Expect)
        }
    }

    /// Whether the next token is of this kind.
    #[tactic(auto, unfolding(crate::specs::Input::sees))]
    pub fn sees(&self, kind: Kind) -> bool
        ensures { result ≡ spec.sees kind self.now }
    {
        lex::same_kind(self.peek(), kind)
    }

    /// Takes the next token, whatever its kind, and lends its octets.
    #[tactic(auto, unfolding(crate::specs::Input::spelling, crate::specs::Input::next))]
    pub fn take(&mut self) -> &'a [u8]
        ensures text { result.now ≡ spec.spelling self.old }
        ensures next { self.new ≡ spec.next self.old }
    {
        let (spelling, text) = self.ahead.split_at(self.token.1);
        let ahead = lex::skip(text);
        self.text = text;
        self.ahead = ahead;
        self.token = lex::token(ahead);
        spelling
    }

    /// Takes a token of this kind, if it comes next, and says whether it did.
    #[tactic(auto, unfolding(crate::specs::Input::past_kind))]
    pub fn eat(&mut self, kind: Kind) -> bool
        ensures found { result ≡ spec.sees kind self.old }
        ensures after { self.new ≡ spec.past_kind kind self.old }
    {
        let found = self.sees(kind);
        if found {
            self.take();
        }
        found
    }

    /// Takes a token of this kind, which must come next.
    #[tactic(auto, unfolding(crate::specs::Input::expect))]
    pub fn expect(&mut self, kind: Kind) -> Result<(), ParseError>
        ensures { ReadsTokens (spec.expect kind self.old) result self.new }
    {
        if self.sees(kind) {
            self.take();
            Ok(())
        } else {
            Err(self.refuse())
        }
    }
}
