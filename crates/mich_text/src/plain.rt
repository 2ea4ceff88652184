//! Reading one statement, where no limit of a statement and of a file is looked at.
ghost use Rattle.std.specs.Prelude.{◌≡◌, ◌+◌, ◌<◌, ◌≤◌, ◌↔◌, option_map, length, IsTrue, OnOk, Ok, None};
ghost use Rattle.rules_text.specs.text.Token.{token_shape, semicolon};
ghost use Rattle.mich_text.specs.Machine.{ready_for};
ghost use Rattle.mich_base.specs.View.{tree};
ghost use Rattle.mich_text.specs.Gives.{flaw_view};
ghost use Rattle.mich_text.specs.Nodes.{stack_view, refusal_view};
ghost use Rattle.mich_text.specs.Results.{kind_of, first_flaw, IsPlaced, IsStep, IsRead, IsWithinText};
ghost use Rattle.mich_text.specs.Views.{token_view};

use super::fault::{Flaw, LexError};
use super::lexical::{after_gap, shape_of, token_at};
use super::parser::{
    Frame, Refusal, ended_node, finish, has_statement, is_root, put, start, why_not,
};
use super::token::Token;
use mich_base::{Memory, Node};
use rules_text::text::{Shape, TextKind};
use std::alloc::Global;

/// A statement, by the bytes that are left at its first byte and behind it.
#[derive(Debug, Drop)]
pub struct Found {
    pub node: Node,
    pub start: usize,
    pub end: usize,
    /// Whether it has its `;`.
    pub closed: bool,
}

/// What one token brought.
enum Step<'a> {
    Taken(&'a [u8]),
    /// It ended the statement.
    Statement(&'a [u8]),
}

fn kind_of(refusal: Refusal) -> TextKind
    ensures { result ≡ kind_of (refusal_view refusal) }
{
    match refusal {
        Refusal::Unexpected => TextKind::Unexpected,
        Refusal::TooDeep => TextKind::TooDeep,
    }
}

/// Of a token's own flaw and the refusal of its place, the one that comes first.
fn first_flaw(own: Flaw, refusal: Option<Refusal>, left: usize) -> Flaw
    ensures { flaw_view result ≡ first_flaw (flaw_view own) (option_map refusal_view refusal) left }
{
    match refusal {
        Some(refusal) if own.left != left => Flaw {
            kind: kind_of(refusal),
            left,
        },
        _ => own,
    }
}

/// Ends an application that isn't in parentheses before a sign that ends an element.
fn ready_for(shape: Shape, stack: &mut Vec<Frame>) -> Result<(), Memory>
    ensures { OnOk result (stack_view stack.new.items ≡ ready_for shape (stack_view stack.old.items)) }
{
    match shape {
        Shape::CloseBrace | Shape::Semicolon => finish(stack),
        _ => Ok(()),
    }
}

fn is_semicolon(token: &Token) -> bool
    ensures { IsTrue result ↔ (token_view token.now ≡ semicolon) }
{
    matches!(token, Token::Semicolon)
}

/// Takes a token that can stand here, or ends the statement.
fn place_token<'a>(
    alloc: Global,
    stack: &mut Vec<Frame>,
    token: Token,
    behind: &'a [u8],
) -> Result<Step<'a>, LexError>
    ensures { IsPlaced (token_view token) behind.now (stack_view stack.old.items) (stack_view stack.new.items) result }
{
    let ends = is_semicolon(&token);
    if ends && has_statement(stack) {
        return Ok(Step::Statement(behind));
    }
    put(alloc, stack, token)?;
    Ok(Step::Taken(behind))
}

/// Takes the token that the text begins with.
fn take_token<'a>(
    alloc: Global,
    stack: &mut Vec<Frame>,
    here: &'a [u8],
) -> Result<Step<'a>, LexError>
    requires { 0 < length here.now }
    ensures { IsStep here.now (stack_view stack.old.items) (stack_view stack.new.items) result }
{
    let Some(shape) = shape_of(here[0]) else {
        return Err(LexError::Flaw(Flaw {
            kind: TextKind::BadChar,
            left: here.len(),
        }));
    };
    ready_for(shape, stack)?;
    let refusal = why_not(stack, shape);
    match token_at(alloc, here) {
        Err(LexError::Memory) => Err(LexError::Memory),
        Err(LexError::Flaw(own)) => Err(LexError::Flaw(first_flaw(own, refusal, here.len()))),
        Ok((token, behind)) => match refusal {
            Some(refusal) => Err(LexError::Flaw(Flaw {
                kind: kind_of(refusal),
                left: here.len(),
            })),
            None => place_token(alloc, stack, token, behind),
        },
    }
}

/// Where the input ends in what isn't closed.
fn unclosed() -> LexError
    ensures { result ≡ LexError.Flaw (record { kind = TextKind.Unclosed; left = 0 }) }
{
    LexError::Flaw(Flaw {
        kind: TextKind::Unclosed,
        left: 0,
    })
}

/// The statement at the front of the text.
pub fn statement_at(alloc: Global, text: &[u8]) -> Result<Option<Found>, LexError>
    ensures { IsRead text.now result }
{
    let Some(first) = after_gap(text) else {
        return Err(unclosed());
    };
    let mut stack = start(alloc)?;
    let mut here = first;
    'tokens: while !here.is_empty() {
        let behind = match take_token(alloc, &mut stack, here)? {
            Step::Taken(behind) => behind,
            Step::Statement(behind) => {
                return Ok(Some(Found {
                    node: ended_node(stack),
                    start: first.len(),
                    end: behind.len(),
                    closed: true,
                }));
            }
        };
        let Some(next) = after_gap(behind) else {
            return Err(unclosed());
        };
        here = next;
    }
    finish(&mut stack)?;
    if has_statement(&stack) {
        Ok(Some(Found {
            node: ended_node(stack),
            start: first.len(),
            end: 0,
            closed: false,
        }))
    } else if is_root(&stack) {
        Ok(None)
    } else {
        Err(unclosed())
    }
}

/// The same, with its places in the text.
#[tactic(auto, using(crate::proofs::readings::Loop::read_within))]
pub(crate) fn statement_within(alloc: Global, text: &[u8]) -> Result<Option<Found>, LexError>
    ensures read { IsRead text.now result }
    ensures within { IsWithinText (length text.now) result }
{
    statement_at(alloc, text)
}
