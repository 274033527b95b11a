ghost use Rattle.std.specs.Prelude.{◌≡◌, ◌≢◌, Err, false, true, MatchBool, MatchResult, Ok, ℕ};
ghost use Rattle.matcher_read.specs.Helps.Counts.{IsWithin, is_ended};
ghost use Rattle.matcher_read.specs.Expression.{expression};
ghost use Rattle.matcher_read.specs.Grammar.{cmp_rule, prim_rule, unary_rule};
ghost use Rattle.matcher_read.specs.Helps.Parsed.{ReadsBy, ReadsList};
ghost use Rattle.matcher_read.specs.Helps.TakenTokens.{
  Stays,
  Takes,
  TakesClosing,
  TakesComparing,
  TakesJoining,
  TakesOpener,
  TakesOpening,
  TakesSign,
  ToldAt,
  first_operand,
  head_is,
  is_comma,
  is_sign,
  is_strange,
  operand_of,
  part_of,
  place_of_next,
  rule_of,
};
ghost use Rattle.matcher_read.specs.Helps.TokenLists.{end_of};
ghost use Rattle.matcher_read.specs.Tokens.{Placed, placed, comma};

use crate::calls::called_by;
use crate::fault::MatcherFault;
use crate::forms::Forms;
use crate::nodes::{among, binary, call, literal, signed};
use crate::token::Token;
use crate::tree::{Operator, Tree};
use crate::words::{Chain, Comparing, Opener, Sign, compares, is_in, joins};
use outside::NoMemory;
use std::alloc::Global;

/// Reads expressions from the tokens of a text. What opens a level is read with one level fewer.
#[derive(Drop)]
pub(crate) struct Parser<'a> {
    pub(crate) alloc: Global,
    pub(crate) tokens: Forms<'a>,
}

impl<'a> Parser<'a> {
    /// Reads parts of a rule with its operators between them.
    #[cycle(parse)]
    pub(crate) fn chain(&mut self, chain: Chain, levels: u8) -> Result<Tree, MatcherFault>
        ensures { ReadsBy levels (rule_of chain) self.old.tokens self.new.tokens result }
    {
        let mut left = self.part(chain, levels)?;
        while let Some((at, operator)) = self.take_joining(chain) {
            let right = self.part(chain, levels)?;
            left = binary(self.alloc, at, operator, left, right)?;
        }
        Ok(left)
    }

    // Reads a part of a rule.
    #[cycle(parse)]
    fn part(&mut self, chain: Chain, levels: u8) -> Result<Tree, MatcherFault>
        ensures { ReadsBy levels (part_of chain) self.old.tokens self.new.tokens result }
    {
        match chain {
            Chain::Or => self.chain(Chain::And, levels),
            Chain::And => self.comparison(levels),
            Chain::Sum => self.chain(Chain::Term, levels),
            Chain::Term => self.unary(levels),
        }
    }

    // Reads a sum, and what it is compared with or looked up in.
    #[cycle(parse)]
    fn comparison(&mut self, levels: u8) -> Result<Tree, MatcherFault>
        ensures { ReadsBy levels cmp_rule self.old.tokens self.new.tokens result }
    {
        let left = self.chain(Chain::Sum, levels)?;
        match self.take_comparing() {
            Comparing::By { at, operator } => {
                let right = self.chain(Chain::Sum, levels)?;
                Ok(binary(self.alloc, at, operator, left, right)?)
            }
            Comparing::In { at } => {
                let inside = self.take_opening(levels)?;
                let members = self.list(inside)?;
                self.take_closing()?;
                Ok(among(self.alloc, at, left, members)?)
            }
            Comparing::Nothing => Ok(left),
        }
    }

    // Reads an operand with the signs before it.
    #[cycle(parse)]
    fn unary(&mut self, levels: u8) -> Result<Tree, MatcherFault>
        ensures { ReadsBy levels unary_rule self.old.tokens self.new.tokens result }
    {
        match self.take_sign(levels)? {
            Some(sign) => {
                let operand = self.unary(levels - 1)?;
                Ok(signed(self.alloc, sign, operand)?)
            }
            None => self.primary(levels),
        }
    }

    // Reads an operand without a sign.
    #[cycle(parse)]
    fn primary(&mut self, levels: u8) -> Result<Tree, MatcherFault>
        requires { head_is is_sign self.old.tokens.tokens ≡ false }
        ensures { ReadsBy levels prim_rule self.old.tokens self.new.tokens result }
    {
        match self.take_opener()? {
            Opener::Parenthesis => {
                let inside = self.take_opening(levels)?;
                let tree = self.chain(Chain::Or, inside)?;
                self.take_closing()?;
                Ok(tree)
            }
            Opener::Call { at, called } => {
                let inside = self.take_opening(levels)?;
                let arguments = self.list(inside)?;
                self.take_closing()?;
                call(at, called, arguments)
            }
            Opener::Nothing => self.literal(levels),
        }
    }

    // Reads one expression or more, with commas between them.
    #[cycle(parse)]
    fn list(&mut self, levels: u8) -> Result<Vec<Tree>, MatcherFault>
        ensures { ReadsList levels self.old.tokens self.new.tokens result }
    {
        let mut list = Vec::new(self.alloc);
        list.push(self.chain(Chain::Or, levels)?)
            .map_err(NoMemory::from)?;
        while self.take_comma() {
            list.push(self.chain(Chain::Or, levels)?)
                .map_err(NoMemory::from)?;
        }
        Ok(list)
    }

    /// Finds that the text, which has so many bytes, ends here.
    pub(crate) fn end(&self, size: usize) -> Result<(), MatcherFault>
        requires size { size ≡ self.now.tokens.size }
        requires stray { IsWithin self.now.tokens.stray self.now.tokens.size }
        ensures { let tokens = self.now.tokens in let ended = is_ended tokens.tokens tokens.stray in
            MatchResult result (λ done. ended ≡ true)
            (λ fault. (ended ≡ false) × (fault ≡ MatcherFault.Unexpected (place_of_next tokens))) }
    {
        if self.tokens.peek().is_some() || self.tokens.end() as usize <= size {
            return Err(self.unexpected());
        }
        Ok(())
    }

    // Reads a literal, a name or the `eval` of a column.
    fn literal(&mut self, levels: u8) -> Result<Tree, MatcherFault>
        ensures { let old = self.old.tokens in MatchResult result
            (λ tree. (first : Placed) × Takes first old self.new.tokens
            × (operand_of levels first.at first.token ≡ Ok (expression tree)))
            (λ fault. fault ≢ MatcherFault.NoMemory
            → first_operand levels old.tokens (end_of old.stray old.size) ≡ Err fault) }
    {
        let Some(next) = self.tokens.peek() else {
            return Err(self.unexpected());
        };
        let tree = literal(self.alloc, next, levels)?;
        self.tokens.advance();
        Ok(tree)
    }

    // The fault of what stands next, where it may not.
    fn unexpected(&self) -> MatcherFault
        ensures { result ≡ MatcherFault.Unexpected (place_of_next self.now.tokens) }
    {
        match self.tokens.peek() {
            Some(next) => MatcherFault::Unexpected { at: next.at },
            None => MatcherFault::Unexpected {
                at: self.tokens.end(),
            },
        }
    }

    // Takes an operator of a rule.
    fn take_joining(&mut self, chain: Chain) -> Option<(u32, Operator)>
        ensures { TakesJoining (rule_of chain) self.old.tokens self.new.tokens result }
    {
        let next = self.tokens.peek()?;
        let Token::Operator(operator) = next.token else {
            return None;
        };
        if !joins(operator, chain) {
            return None;
        }
        self.tokens.advance();
        Some((next.at, operator))
    }

    // Takes an operator that compares, or the word `in`.
    fn take_comparing(&mut self) -> Comparing
        ensures { TakesComparing result self.old.tokens self.new.tokens }
    {
        let Some(next) = self.tokens.peek() else {
            return Comparing::Nothing;
        };
        match next.token {
            Token::Operator(operator) if compares(operator) => {
                self.tokens.advance();
                Comparing::By {
                    at: next.at,
                    operator,
                }
            }
            Token::Name(name) if is_in(name) => {
                self.tokens.advance();
                Comparing::In { at: next.at }
            }
            _ => Comparing::Nothing,
        }
    }

    // Takes a sign, which opens a level.
    fn take_sign(&mut self, levels: u8) -> Result<Option<Sign>, MatcherFault>
        ensures { TakesSign levels self.old.tokens self.new.tokens result }
    {
        let Some(next) = self.tokens.peek() else {
            return Ok(None);
        };
        let at = next.at;
        let sign = match next.token {
            Token::Exclamation => Sign::Not { at },
            Token::Operator(Operator::Minus) => Sign::Negate { at },
            _ => return Ok(None),
        };
        if levels == 0 {
            return Err(MatcherFault::TooDeep { at });
        }
        self.tokens.advance();
        Ok(Some(sign))
    }

    // Takes the name of a call, or finds that a parenthesis stands next.
    fn take_opener(&mut self) -> Result<Opener, MatcherFault>
        ensures { MatchResult result (TakesOpener self.old.tokens self.new.tokens)
            (ToldAt is_strange MatcherFault.UnknownFunction self.old.tokens) }
    {
        let Some(next) = self.tokens.peek() else {
            return Ok(Opener::Nothing);
        };
        match next.token {
            Token::Opening => Ok(Opener::Parenthesis),
            Token::Called(name) => {
                let Some(called) = called_by(name) else {
                    return Err(MatcherFault::UnknownFunction { at: next.at });
                };
                self.tokens.advance();
                Ok(Opener::Call {
                    at: next.at,
                    called,
                })
            }
            _ => Ok(Opener::Nothing),
        }
    }

    // Takes an opening parenthesis, and gives the levels that are left inside.
    fn take_opening(&mut self, levels: u8) -> Result<u8, MatcherFault>
        ensures { TakesOpening levels self.old.tokens self.new.tokens result }
    {
        let Some(next) = self.tokens.peek() else {
            return Err(self.unexpected());
        };
        let Token::Opening = next.token else {
            return Err(MatcherFault::Unexpected { at: next.at });
        };
        if levels == 0 {
            return Err(MatcherFault::TooDeep { at: next.at });
        }
        self.tokens.advance();
        Ok(levels - 1)
    }

    // Takes a closing parenthesis.
    fn take_closing(&mut self) -> Result<(), MatcherFault>
        ensures { TakesClosing self.old.tokens self.new.tokens result }
    {
        let Some(next) = self.tokens.peek() else {
            return Err(self.unexpected());
        };
        let Token::Closing = next.token else {
            return Err(MatcherFault::Unexpected { at: next.at });
        };
        self.tokens.advance();
        Ok(())
    }

    // Takes a comma, if one stands next.
    fn take_comma(&mut self) -> bool
        ensures { MatchBool result
            ((at : ℕ) × Takes (placed at comma) self.old.tokens self.new.tokens)
            (Stays is_comma self.old.tokens self.new.tokens) }
    {
        let Some(next) = self.tokens.peek() else {
            return false;
        };
        let Token::Comma = next.token else {
            return false;
        };
        self.tokens.advance();
        true
    }
}
