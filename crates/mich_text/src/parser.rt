//! The stack of open nodes.
ghost use Rattle.std.specs.Prelude.{◌≡◌, ◌∷◌, [], option_map, map, length, IsTrue, OnOk, IfOk, Ok, None, true};
ghost use Rattle.rules_text.specs.nodes.Limits.{depth_limit};
ghost use Rattle.rules_text.specs.nodes.Tree.{Tree, prim};
ghost use Rattle.rules_text.specs.text.Token.{token_shape};
ghost use Rattle.mich_text.specs.Machine.{Stack, add, finish, on, refused, put, put_name, put_annotation, close_named, close_elements, go_on, no_begin, is_open, has_statement, is_root, start, ended_tree};
ghost use Rattle.mich_text.specs.Views.{token_view};
ghost use Rattle.mich_base.specs.View.{tree};
ghost use Rattle.mich_text.specs.Nodes.{frame_view, stack_view, refusal_view};

use super::node::{application, sequence};
use super::token::Token;
use mich_base::{DEPTH_LIMIT, Memory, Node, Nodes, Rows, Text, Texts};
use rules_text::text::Shape;
use std::alloc::Global;

// A node that is open.
#[derive(Debug, Drop)]
pub enum Frame {
    // The list of statements, or a sequence in braces.
    Elements {
        braced: bool,
        nodes: Rows<Node>,
        // Whether a further node may begin.
        ready: bool,
    },
    // An application, in parentheses or not.
    Named {
        wrapped: bool,
        name: Text,
        annotations: Texts,
        arguments: Nodes,
    },
    // A parenthesis, before the name.
    Paren,
}

// Why a token can't stand where it stands.
#[derive(Clone, Copy, Debug, PartialEq, Eq)]
pub enum Refusal {
    Unexpected,
    TooDeep,
}

impl Frame {
    // Puts a whole node in.
    fn add(&mut self, node: Node) -> Result<(), Memory>
        ensures { OnOk result (frame_view self.new ∷ [] ≡ add (tree node) (frame_view self.old ∷ [])) }
    {
        match self {
            Frame::Elements { nodes, ready, .. } => {
                nodes.push(node)?;
                *ready = false;
            }
            Frame::Named { arguments, .. } => arguments.push(node)?,
            Frame::Paren => {}
        }
        Ok(())
    }
}

// Puts a whole node into the innermost open one.
pub(crate) fn add(stack: &mut Vec<Frame>, node: Node) -> Result<(), Memory>
    ensures { OnOk result (stack_view stack.new.items ≡ add (tree node) (stack_view stack.old.items)) }
{
    if let Some(frame) = stack.last_mut() {
        frame.add(node)?;
    }
    Ok(())
}

// Ends an application that isn't in parentheses.
pub(crate) fn finish(stack: &mut Vec<Frame>) -> Result<(), Memory>
    ensures { OnOk result (stack_view stack.new.items ≡ finish (stack_view stack.old.items)) }
{
    match stack.pop() {
        Some(
            Frame::Named {
                wrapped: false,
                name,
                annotations,
                arguments,
            },
        ) => add(stack, application(name, annotations, arguments)),
        Some(frame) => Ok(stack.push(frame)?),
        None => Ok(()),
    }
}

fn is_open(stack: &Vec<Frame>) -> bool
    ensures { result ≡ is_open (stack_view stack.now.items) }
{
    match stack.last() {
        Some(Frame::Elements { ready, .. }) => *ready,
        Some(Frame::Named { .. }) => true,
        Some(Frame::Paren) | None => false,
    }
}

// Whether the innermost open node is the list of statements, with one node that has ended.
pub(crate) fn has_statement(stack: &Vec<Frame>) -> bool
    ensures { result ≡ has_statement (stack_view stack.now.items) }
{
    match stack.as_slice() {
        [
            Frame::Elements {
                braced: false,
                nodes,
                ready: false,
            },
        ] => nodes.len() == 1,
        _ => false,
    }
}

// Why a node can't begin here.
fn no_begin(stack: &Vec<Frame>) -> Option<Refusal>
    ensures { option_map refusal_view result ≡ no_begin depth_limit (stack_view stack.now.items) }
{
    if !is_open(stack) {
        Some(Refusal::Unexpected)
    } else if stack.len() > DEPTH_LIMIT as usize {
        Some(Refusal::TooDeep)
    } else {
        None
    }
}

// Why no token of this shape can stand here.
#[tactic(auto, unfolding(crate::specs::Machine::refused))]
pub(crate) fn why_not(stack: &Vec<Frame>, shape: Shape) -> Option<Refusal>
    ensures { option_map refusal_view result ≡ refused depth_limit (stack_view stack.now.items) shape }
{
    let stands = match (shape, stack.last()) {
        (Shape::Word, Some(Frame::Paren)) => true,
        (Shape::Digits | Shape::Quoted | Shape::Word | Shape::OpenBrace | Shape::OpenParen, _) => {
            return no_begin(stack);
        }
        (Shape::Note, Some(Frame::Named { .. })) => true,
        (Shape::CloseBrace, Some(Frame::Elements { braced, .. })) => *braced,
        (Shape::CloseParen, Some(Frame::Named { wrapped, .. })) => *wrapped,
        (Shape::Semicolon, Some(Frame::Elements { ready, .. })) => !*ready,
        _ => false,
    };
    if stands {
        None
    } else {
        Some(Refusal::Unexpected)
    }
}

impl Frame {
    fn annotate(&mut self, annotation: Text) -> Result<(), Memory>
        ensures { OnOk result (frame_view self.new ∷ [] ≡ put_annotation annotation (frame_view self.old ∷ [])) }
    {
        if let Frame::Named { annotations, .. } = self {
            annotations.push(annotation)?;
        }
        Ok(())
    }

    fn go_on(&mut self)
        ensures { frame_view self.new ∷ [] ≡ go_on (frame_view self.old ∷ []) }
    {
        if let Frame::Elements { ready, .. } = self {
            *ready = true;
        }
    }
}

fn put_annotation(stack: &mut Vec<Frame>, annotation: Text) -> Result<(), Memory>
    ensures { OnOk result (stack_view stack.new.items ≡ put_annotation annotation (stack_view stack.old.items)) }
{
    if let Some(frame) = stack.last_mut() {
        frame.annotate(annotation)?;
    }
    Ok(())
}

fn go_on(stack: &mut Vec<Frame>)
    ensures { stack_view stack.new.items ≡ go_on (stack_view stack.old.items) }
{
    if let Some(frame) = stack.last_mut() {
        frame.go_on();
    }
}

fn close_elements(stack: &mut Vec<Frame>) -> Result<(), Memory>
    ensures { OnOk result (stack_view stack.new.items ≡ close_elements (stack_view stack.old.items)) }
{
    match stack.pop() {
        Some(Frame::Elements { nodes, .. }) => add(stack, sequence(Nodes::from_rows(nodes)?)),
        _ => Ok(()),
    }
}

fn close_named(stack: &mut Vec<Frame>) -> Result<(), Memory>
    ensures { OnOk result (stack_view stack.new.items ≡ close_named (stack_view stack.old.items)) }
{
    match stack.pop() {
        Some(
            Frame::Named {
                name,
                annotations,
                arguments,
                ..
            },
        ) => add(stack, application(name, annotations, arguments)),
        _ => Ok(()),
    }
}

fn put_name(alloc: Global, stack: &mut Vec<Frame>, name: Text) -> Result<(), Memory>
    ensures { OnOk result (stack_view stack.new.items ≡ put_name name (stack_view stack.old.items)) }
{
    match stack.pop() {
        None => {}
        Some(Frame::Paren) => stack.push(Frame::Named {
            wrapped: true,
            name,
            annotations: Texts::new(alloc),
            arguments: Nodes::new(alloc),
        })?,
        Some(frame) => {
            let is_argument = matches!(frame, Frame::Named { .. });
            stack.push(frame)?;
            if is_argument {
                add(
                    stack,
                    application(name, Texts::new(alloc), Nodes::new(alloc)),
                )?;
            } else {
                stack.push(Frame::Named {
                    wrapped: false,
                    name,
                    annotations: Texts::new(alloc),
                    arguments: Nodes::new(alloc),
                })?;
            }
        }
    }
    Ok(())
}

// Takes a token that can stand here. An application that isn't in parentheses was ended before `}` and `;`.
pub(crate) fn put(alloc: Global, stack: &mut Vec<Frame>, token: Token) -> Result<(), Memory>
    ensures { OnOk result (stack_view stack.new.items ≡ put (token_view token) (stack_view stack.old.items)) }
{
    match token {
        Token::Number(n) => add(stack, Node::Int(n)),
        Token::Bytes(bytes) => add(stack, Node::Bytes(bytes)),
        Token::Text(text) => add(stack, Node::Str(text)),
        Token::Name(name) => put_name(alloc, stack, name),
        Token::Annotation(annotation) => put_annotation(stack, annotation),
        Token::OpenBrace => {
            let nodes = Rows::new(alloc);
            Ok(stack.push(Frame::Elements {
                braced: true,
                nodes,
                ready: true,
            })?)
        }
        Token::OpenParen => Ok(stack.push(Frame::Paren)?),
        Token::CloseBrace => close_elements(stack),
        Token::CloseParen => close_named(stack),
        Token::Semicolon => {
            go_on(stack);
            Ok(())
        }
    }
}

// Whether no node is open.
pub(crate) fn is_root(stack: &Vec<Frame>) -> bool
    ensures { result ≡ is_root (stack_view stack.now.items) }
{
    matches!(stack.as_slice(), [Frame::Elements { braced: false, .. }])
}

// A list of statements without any.
pub(crate) fn start(alloc: Global) -> Result<Vec<Frame>, Memory>
    ensures { IfOk result (λ stack. stack_view stack.items ≡ start) }
{
    let mut stack = Vec::new(alloc);
    stack.push(Frame::Elements {
        braced: false,
        nodes: Rows::new(alloc),
        ready: true,
    })?;
    Ok(stack)
}

// The node that has ended.
pub(crate) fn ended_node(mut stack: Vec<Frame>) -> Node
    requires { has_statement (stack_view stack.items) ≡ true }
    ensures { (d : Tree) → tree result ≡ ended_tree (stack_view stack.items) d }
{
    match stack.pop() {
        Some(Frame::Elements { mut nodes, .. }) => match nodes.pop() {
            Some(node) => node,
            None => unreachable!(),
        },
        _ => unreachable!(),
    }
}
