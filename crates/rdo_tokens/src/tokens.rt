//! A cursor over the tokens of a script, which cuts each as it is reached.

ghost use Rattle.std.specs.Prelude.{◌≡◌, ◌↔◌, ◌≤◌, IsTrue, IfOk, []};
ghost use Rattle.rdo_tokens.specs.Lex as lexis;
ghost use Rattle.rdo_tokens.specs.Input as spec;
ghost use Rattle.rdo_tokens.specs.Input.{Reads};

use crate::lex;
use crate::lex::{Cut, Numeral};
use crate::token::Kind;
use rdb_types::Chars;
use std::alloc::{AllocError, Global};
use std::marker::Model;

/// Why a production was not read.
#[derive(Clone, Copy, Debug, PartialEq, Eq)]
pub enum Stop {
    Memory,
    /// The next token is the offending one.
    Offending,
}

impl From<AllocError> for Stop {
    ghost use Rattle.std.specs.Prelude.{◌≡◌};
    ghost use Rattle.rdo_tokens.specs.declared.tokens.Stop.TheVariants.{Memory};

    ghost from_gives = { λ _ e. e ≡ Memory };

    fn from(_: AllocError) -> Stop {
        Stop::Memory
    }
}

/// The tokens of a text from one place on. The text is not copied.
#[derive(Drop)]
pub struct Tokens<'a> {
    /// The script from the next token on.
    ahead: &'a [u8],
    /// That token.
    cut: Cut,
}

impl<'a> Model for Tokens<'a> {
    ghost use Rattle.std.specs.Prelude.{List};
    ghost use Rattle.rdo_tokens.specs.Lex.{Token};

    ghost Value = { List Token };

    ghost use Rattle.rdo_tokens.specs.Cursor.{tokens_of, IsReady};

    ghost view = { tokens_of };

    ghost invariant = { IsReady };
}

impl<'a> Tokens<'a> {
    /// The tokens of a text.
    #[tactic(auto, using(crate::proofs::CursorLemmas::whole))]
    pub fn new(text: &'a [u8]) -> Tokens<'a>
        ensures { result ≡ lexis.tokens text.now }
    {
        let ahead = lex::skip(text);
        Tokens {
            ahead,
            cut: lex::token(ahead),
        }
    }

    /// The kind of the next token.
    #[tactic(auto, using(crate::proofs::CursorLemmas::kind_ahead))]
    pub fn peek(&self) -> Kind
        ensures { result ≡ spec.kind self.now }
    {
        self.cut.kind
    }

    /// How many bytes there are from the next token on.
    #[tactic(auto, using(crate::proofs::CursorLemmas::left_ahead))]
    pub fn left(&self) -> usize
        ensures { result ≡ spec.left self.now }
    {
        self.ahead.len()
    }

    /// Whether no token is left.
    #[tactic(auto, using(crate::proofs::CursorLemmas::empty_ahead, crate::proofs::CursorLemmas::some_ahead))]
    pub fn is_empty(&self) -> bool
        ensures { IsTrue result ↔ (self.now ≡ []) }
    {
        self.ahead.is_empty()
    }

    /// The bytes of the next token.
    #[tactic(auto, using(crate::proofs::CursorLemmas::spelling_ahead))]
    fn spelling(&self) -> &'a [u8]
        ensures { result.now ≡ spec.spelling self.now }
    {
        &self.ahead[..self.cut.len]
    }

    /// Takes the next token, whatever its kind, and gives its bytes.
    #[tactic(auto, using(crate::proofs::CursorLemmas::next_ahead, crate::proofs::CursorLemmas::whole, std::proofs::lemmas::List::take_rest))]
    pub fn take(&mut self) -> &'a [u8]
        ensures text { result.now ≡ spec.spelling self.old }
        ensures next { self.new ≡ spec.next self.old }
    {
        let spelling = self.spelling();
        let ahead = lex::skip(&self.ahead[self.cut.len..]);
        self.ahead = ahead;
        self.cut = lex::token(ahead);
        spelling
    }

    /// Whether a token of this kind comes next.
    #[tactic(auto, unfolding(crate::specs::Input::sees))]
    pub fn sees(&self, kind: Kind) -> bool
        ensures { result ≡ spec.sees kind self.now }
    {
        lex::same_kind(self.peek(), kind)
    }

    /// Takes a token of this kind if it comes next, and says whether it does.
    #[tactic(auto, unfolding(crate::specs::Input::after))]
    pub fn eat(&mut self, kind: Kind) -> bool
        ensures found { result ≡ spec.sees kind self.old }
        ensures after { self.new ≡ spec.after kind self.old }
    {
        let found = self.sees(kind);
        if found {
            self.take();
        }
        found
    }

    /// Takes a token of this kind; any other is the offending one.
    #[tactic(auto, unfolding(crate::specs::Input::expect))]
    pub fn expect(&mut self, kind: Kind) -> Result<(), Stop>
        ensures { Reads (spec.expect kind self.old) result self.new }
    {
        if self.sees(kind) {
            self.take();
            Ok(())
        } else {
            Err(Stop::Offending)
        }
    }

    /// A name, in capitals.
    #[tactic(auto, unfolding(crate::specs::Input::name))]
    pub fn name(&mut self, alloc: Global) -> Result<Chars, Stop>
        ensures { Reads (spec.name self.old) result self.new }
    {
        if !self.sees(Kind::Name) {
            return Err(Stop::Offending);
        }
        Ok(lex::upper(alloc, self.take())?)
    }

    /// This name and no other, in capitals or not.
    #[tactic(auto, unfolding(crate::specs::Input::same_name))]
    pub fn same_name(&mut self, known: &[u8]) -> Result<(), Stop>
        ensures { Reads (spec.same_name known.now self.old) result self.new }
    {
        if self.sees(Kind::Name) && lex::same_word(self.spelling(), known) {
            self.take();
            Ok(())
        } else {
            Err(Stop::Offending)
        }
    }

    /// A text, without its quotes and the blanks at its end.
    #[tactic(auto, unfolding(crate::specs::Input::text))]
    pub fn text(&mut self, alloc: Global) -> Result<Chars, Stop>
        ensures { Reads (spec.text self.old) result self.new }
    {
        if !self.sees(Kind::Quoted) {
            return Err(Stop::Offending);
        }
        Ok(lex::text_value(alloc, self.take())?)
    }

    /// A number, with a fraction or without one.
    #[tactic(auto, unfolding(crate::specs::Input::number))]
    pub fn number(&mut self) -> Result<Numeral, Stop>
        ensures reads { Reads (spec.number self.old) result self.new }
        ensures within { IfOk result (λ n. n.digits ≤ lexis.max_number) }
    {
        if !self.sees(Kind::Number) {
            return Err(Stop::Offending);
        }
        match lex::number_value(self.spelling()) {
            Some(number) => {
                self.take();
                Ok(number)
            }
            None => Err(Stop::Offending),
        }
    }

    /// A number without a fraction, from `least` to `most`.
    #[tactic(auto, unfolding(crate::specs::Input::whole_number))]
    pub fn whole_number(&mut self, least: u64, most: u64) -> Result<u64, Stop>
        ensures reads { Reads (spec.whole_number least most self.old) result self.new }
        ensures least { IfOk result (λ n. least ≤ n) }
        ensures within { IfOk result (λ n. n ≤ most) }
    {
        if !self.sees(Kind::Number) {
            return Err(Stop::Offending);
        }
        match lex::number_value(self.spelling()) {
            Some(n) if n.scale == 0 && least <= n.digits && n.digits <= most => {
                self.take();
                Ok(n.digits)
            }
            _ => Err(Stop::Offending),
        }
    }
}
