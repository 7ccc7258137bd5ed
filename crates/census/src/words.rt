ghost use Rattle.std.specs.Prelude.{◌≡◌, ℕ, ◌<◌, ◌^◌, [], ◌∷◌, ◌++◌, Some, IfSome, OnOk, OnErr, codes, decimal};
ghost use Rattle.cs_base.specs.Ranges.{IsFromTo};
ghost use Rattle.census.specs.Commands.{IsAsked, form_word};

use crate::command::Command;
use crate::form::Form;
use cs_drill::{FEWEST_NODES, FIRST_PORT, LAST_PORT, MOST_LIVE, MOST_NODES};
use std::alloc::{AllocError, Global};
use std::marker::Model;
use std::str;

/// The words behind the program's name.
#[derive(Debug, Drop)]
pub struct Words {
    items: Vec<Vec<u8>>,
}

impl Model for Words {
    ghost use Rattle.std.specs.Prelude.{List, ℕ, map};

    ghost Value = { List (List ℕ) };

    ghost view = { λ words. map (λ word. word.items) words.items.items };
}

impl Words {
    pub fn new(alloc: Global) -> Self
        ensures { result ≡ [] }
    {
        Words {
            items: Vec::new(alloc),
        }
    }

    pub fn push(&mut self, word: &[u8]) -> Result<(), AllocError>
        ensures ok { OnOk result (self.new ≡ self.old ++ word.now ∷ []) }
        ensures err { OnErr result (self.new ≡ self.old) }
    {
        let word = Vec::from_slice(*self.items.allocator(), word)?;
        self.items.push(word)?;
        Ok(())
    }

    /// What the words ask for.
    pub fn command(&self) -> Option<Command>
        ensures found { IfSome result (IsAsked self.now) }
        ensures only { (command : Command) → IsAsked self.now command → result ≡ Some command }
    {
        match self.items.as_slice() {
            [word] => Some(Command::Tell(form_named(word)?)),
            [word, first, second] => numbered(word, first, second),
            _ => None,
        }
    }
}

// The form of one word.
fn form_named(word: &[u8]) -> Option<Form>
    ensures found { IfSome result (λ form. word.now ≡ form_word form) }
    ensures only { (form : Form) → word.now ≡ form_word form → result ≡ Some form }
{
    if word == b"replay".as_slice() {
        Some(Form::Replay)
    } else if word == b"node".as_slice() {
        Some(Form::Node)
    } else {
        None
    }
}

// The drill or the live run of a word and two numbers.
fn numbered(word: &[u8], first: &[u8], second: &[u8]) -> Option<Command>
    ensures found { IfSome result (λ command. IsAsked (word.now ∷ first.now ∷ second.now ∷ []) command) }
    ensures only { (command : Command) → IsAsked (word.now ∷ first.now ∷ second.now ∷ []) command
        → result ≡ Some command }
{
    if word == b"drill".as_slice() {
        drill_of(first, second)
    } else if word == b"live".as_slice() {
        live_of(first, second)
    } else {
        None
    }
}

// The drill of a number of nodes and a seed.
fn drill_of(nodes: &[u8], seed: &[u8]) -> Option<Command>
    ensures found { IfSome result (λ command. IsAsked (codes "drill" ∷ nodes.now ∷ seed.now ∷ []) command) }
    ensures only { (command : Command) → IsAsked (codes "drill" ∷ nodes.now ∷ seed.now ∷ []) command
        → result ≡ Some command }
{
    Some(Command::Drill {
        nodes: number_within(nodes, FEWEST_NODES, MOST_NODES)?,
        seed: number_of(seed)?,
    })
}

// The live run of a number of nodes and a port.
fn live_of(nodes: &[u8], port: &[u8]) -> Option<Command>
    ensures found { IfSome result (λ command. IsAsked (codes "live" ∷ nodes.now ∷ port.now ∷ []) command) }
    ensures only { (command : Command) → IsAsked (codes "live" ∷ nodes.now ∷ port.now ∷ []) command
        → result ≡ Some command }
{
    Some(Command::Live {
        nodes: number_within(nodes, FEWEST_NODES, MOST_LIVE)?,
        port: number_within(port, FIRST_PORT, LAST_PORT)? as u16,
    })
}

// The number of the range that the word spells.
fn number_within(word: &[u8], least: u32, most: u32) -> Option<u32>
    ensures found { IfSome result (λ n. (word.now ≡ decimal n) × IsFromTo least most n) }
    ensures only { (n : ℕ) → IsFromTo least most n → word.now ≡ decimal n → result ≡ Some n }
{
    let number = u32::try_from(number_of(word)?).ok()?;
    if (least..=most).contains(&number) {
        Some(number)
    } else {
        None
    }
}

// The number that the word spells in decimal digits, without a sign or a leading zero.
fn number_of(word: &[u8]) -> Option<u64>
    ensures found { IfSome result (λ n. word.now ≡ decimal n) }
    ensures only { (n : ℕ) → n < 2 ^ 64 → word.now ≡ decimal n → result ≡ Some n }
{
    let number = parsed(word)?;
    let mut buffer = itoa::Buffer::new();
    if buffer.format(number).as_bytes() == word {
        Some(number)
    } else {
        None
    }
}

// The number that the word spells in decimal digits, which may have a sign and zeros before them.
fn parsed(word: &[u8]) -> Option<u64>
    ensures { (n : ℕ) → n < 2 ^ 64 → word.now ≡ decimal n → result ≡ Some n }
{
    let text = str::from_utf8(word).ok()?;
    text.parse().ok()
}
