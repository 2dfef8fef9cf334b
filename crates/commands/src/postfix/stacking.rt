// How a plan grows, word by word.
ghost use Rattle.std.specs.Prelude.{◌≡◌, ◌<◌, length};
ghost use Rattle.std.specs.Option.{option_map};
ghost use Rattle.ordered.specs.Lists.{items_in};
ghost use Rattle.words.specs.Language.{form_of};
ghost use Rattle.words.specs.Meaning.{seen};
ghost use Rattle.commands.specs.Plans.{bare, topped, chosen, paired, op_of, with_form, with_word, whole};
ghost use Rattle.commands.specs.Postfixes.{stacked, Pops};

use super::Postfix;
use crate::parsing::comparison::choice_of;
use crate::parsing::leaf::leaf_of;
use ordered::Few;
use plan::{Comparison, Node, Op};
use words::{Part, Token, word};

// The operation that a sign stands for.
fn op_of(sign: &[u8]) -> Option<Op>
    ensures { result ≡ op_of sign.now }
{
    match sign {
        b"*" => Some(Op::Product),
        b"+" => Some(Op::Union),
        b"-" => Some(Op::Difference),
        _ => None,
    }
}

// The token that a word is, if it has a form.
fn token_of(part: Part<'_>) -> Option<Token<'_>>
    ensures { option_map seen result ≡ form_of part.entry.text.now }
{
    let word = word(part)?;
    Some(word.token)
}

impl Postfix {
    // No nodes.
    pub(crate) fn new() -> Postfix
        ensures { stacked result ≡ bare }
    {
        Postfix {
            nodes: Few::new(Node::open(0, 1)),
            stack: Few::new(0),
        }
    }

    // Takes the node on top away.
    fn pop(&mut self) -> Option<u8>
        ensures { Pops (stacked self.old) (stacked self.new) result }
    {
        let (node, rest) = self.stack.as_slice().split_last()?;
        let node = *node;
        self.stack = Few::of(rest, 0);
        Some(node)
    }

    // One more node, on top.
    fn put(&mut self, node: Node)
        requires { length (items_in self.old.nodes) < 100 }
        ensures { stacked self.new ≡ topped node (stacked self.old) }
    {
        let position = self.nodes.len() as u8;
        self.nodes.push(node);
        self.stack.push(position);
    }

    // A choice in the place of the node on top.
    fn choose(&mut self, comparison: Comparison) -> Option<()>
        requires { length (items_in self.old.nodes) < 100 }
        ensures { option_map (λ _. stacked self.new) result ≡ chosen (stacked self.old) comparison }
    {
        let node = self.pop()?;
        self.put(Node::Choice { node, comparison });
        Some(())
    }

    // A pair in the place of the two nodes on top.
    fn join(&mut self, op: Op) -> Option<()>
        requires { length (items_in self.old.nodes) < 100 }
        ensures { option_map (λ _. stacked self.new) result ≡ paired (stacked self.old) op }
    {
        let right = self.pop()?;
        let left = self.pop()?;
        self.put(Node::pair(op, left, right));
        Some(())
    }

    // What a token makes of the stack.
    fn take(&mut self, token: Token<'_>) -> Option<()>
        requires { length (items_in self.old.nodes) < 100 }
        ensures { option_map (λ _. stacked self.new) result ≡ with_form (stacked self.old) (seen token.entry) }
    {
        match token {
            Token::Leaf(text) => {
                self.put(leaf_of(text)?);
                Some(())
            }
            Token::Comparison(text) => self.choose(choice_of(text)?),
            Token::Sign(text) => self.join(op_of(text)?),
            Token::Number(_) | Token::Slash => None,
        }
    }

    // One more word.
    pub(crate) fn add(&mut self, part: Part<'_>) -> Option<()>
        requires { length (items_in self.old.nodes) < 100 }
        ensures { option_map (λ _. stacked self.new) result ≡ with_word (stacked self.old) part.entry.text.now }
    {
        self.take(token_of(part)?)
    }

    // The nodes, where exactly one is left on the stack.
    pub(crate) fn whole(self) -> Option<Few<Node, 100>>
        ensures { option_map items_in result ≡ whole (stacked self) }
    {
        (self.stack.len() == 1).then_some(self.nodes)
    }
}
