//! From a line to its event: the first word says how many words follow, and of which kinds.

ghost use Rattle.std.specs.Prelude.{◌≡◌, ◌⊎◌, ◌∷◌, IfOk, map, codes};
ghost use Rattle.cs_script.specs.Event.{IsEvent};
ghost use Rattle.cs_script.specs.Grammar.{event_among, event_in, event_of, words_of};
ghost use Rattle.cs_script.specs.Kinds.{ANumber};
ghost use Rattle.cs_script.specs.Parts.{only, short_rows};
ghost use Rattle.cs_script.specs.Rows.{AnId, rows};
ghost use Rattle.cs_script.specs.Spelling.{spelling};
ghost use Rattle.cs_script.specs.declared.event.Event.{Event};

use crate::words::{
    read_address, read_bytes, read_id, read_mode, read_number, read_point, read_region,
};
use crate::{Event, LineFault, MOST_NOISE, MOST_ROUNDS};
use cs_base::{LAST_ID, NodeId};
use std::alloc::{AllocError, Global};

/// Reads a line without its LF.
pub fn read_line(alloc: Global, line: &[u8]) -> Result<Event, LineFault>
    ensures line { (result ≡ Err LineFault.Memory) ⊎ (result ≡ event_of line.now) }
    ensures ranges { IfOk result IsEvent }
    ensures found { IfOk result (λ event. line.now ≡ spelling event) }
    ensures only { (event : Event) → IsEvent event → line.now ≡ spelling event
        → (result ≡ Err LineFault.Memory) ⊎ (result ≡ Ok event) }
{
    read_event(alloc, line)
}

// What the line says.
#[tactic(auto, unfolding(crate::specs::Grammar::event_of))]
fn read_event(alloc: Global, line: &[u8]) -> Result<Event, LineFault>
    ensures { (result ≡ Err LineFault.Memory) ⊎ (result ≡ event_of line.now) }
{
    let words = split_words(alloc, line).map_err(|_| LineFault::Memory)?;
    match words.as_slice() {
        [] => Err(LineFault::Word),
        [word, args @ ..] => read_words(alloc, word, args),
    }
}

// The words stand between single spaces.
fn split_words(alloc: Global, line: &[u8]) -> Result<Vec<&[u8]>, AllocError>
    ensures { IfOk result (λ words. map (λ word. word.now) words.items ≡ words_of line.now) }
{
    line.split(|b| *b == b' ').collect(alloc)
}

// Reads the words of a line: the first, and those behind it.
fn read_words(alloc: Global, word: &[u8], args: &[&[u8]]) -> Result<Event, LineFault>
    ensures { (result ≡ Err LineFault.Memory)
        ⊎ (result ≡ event_among rows word.now (map (λ word. word.now) args.now)) }
{
    if word == b"lead".as_slice() {
        read_lead(args)
    } else if word == b"boot".as_slice() {
        read_boot(args)
    } else if word == b"home".as_slice() {
        read_home(args)
    } else if word == b"move".as_slice() {
        read_move(args)
    } else if word == b"close".as_slice() {
        read_close(args)
    } else if word == b"ask".as_slice() {
        read_ask(args)
    } else if word == b"need".as_slice() {
        read_need(args)
    } else if word == b"packet".as_slice() {
        read_packet(alloc, args)
    } else if word == b"noise".as_slice() {
        read_noise(args)
    } else if word == b"tear".as_slice() {
        read_tear(args)
    } else {
        read_short(word, args)
    }
}

// Reads a line of one argument.
fn read_short(word: &[u8], args: &[&[u8]]) -> Result<Event, LineFault>
    ensures { result ≡ event_among short_rows word.now (map (λ word. word.now) args.now) }
{
    if word == b"join".as_slice() {
        Ok(Event::Join(only_id(args)?))
    } else if word == b"leave".as_slice() {
        Ok(Event::Leave(only_id(args)?))
    } else if word == b"flush".as_slice() {
        Ok(Event::Flush(only_id(args)?))
    } else if word == b"crash".as_slice() {
        Ok(Event::Crash(only_id(args)?))
    } else if word == b"restart".as_slice() {
        Ok(Event::Restart(only_id(args)?))
    } else if word == b"print".as_slice() {
        Ok(Event::Print(only_id(args)?))
    } else if word == b"deliver".as_slice() {
        Ok(Event::Deliver(only_number(args, LAST_ID)?))
    } else if word == b"lose".as_slice() {
        Ok(Event::Lose(only_number(args, LAST_ID)?))
    } else if word == b"settle".as_slice() {
        Ok(Event::Settle(only_number(args, MOST_ROUNDS)?))
    } else {
        Err(LineFault::Word)
    }
}

// The id of a line that has one word behind the first.
fn only_id(args: &[&[u8]]) -> Result<NodeId, LineFault>
    ensures { result ≡ only AnId (map (λ word. word.now) args.now) }
{
    match args {
        [word] => read_id(word),
        _ => Err(LineFault::Count),
    }
}

// The same, as a number from 1.
fn only_number(args: &[&[u8]], most: u32) -> Result<u32, LineFault>
    ensures { result ≡ only (ANumber 1 most) (map (λ word. word.now) args.now) }
{
    match args {
        [word] => read_number(word, 1, most),
        _ => Err(LineFault::Count),
    }
}

fn read_lead(args: &[&[u8]]) -> Result<Event, LineFault>
    ensures { result ≡ event_in (codes "lead" ∷ map (λ word. word.now) args.now) }
{
    let [id, addr, x, y, z] = args else {
        return Err(LineFault::Count);
    };
    let id = read_id(id)?;
    let addr = read_address(addr)?;
    let at = read_point(x, y, z)?;
    Ok(Event::Lead(id, addr, at))
}

fn read_boot(args: &[&[u8]]) -> Result<Event, LineFault>
    ensures { result ≡ event_in (codes "boot" ∷ map (λ word. word.now) args.now) }
{
    let [id, addr, x, y, z, mode] = args else {
        return Err(LineFault::Count);
    };
    let id = read_id(id)?;
    let addr = read_address(addr)?;
    let at = read_point(x, y, z)?;
    let mode = read_mode(mode)?;
    Ok(Event::Boot(id, addr, at, mode))
}

fn read_home(args: &[&[u8]]) -> Result<Event, LineFault>
    ensures { result ≡ event_in (codes "home" ∷ map (λ word. word.now) args.now) }
{
    let [id, addr] = args else {
        return Err(LineFault::Count);
    };
    let id = read_id(id)?;
    let addr = read_address(addr)?;
    Ok(Event::Home(id, addr))
}

fn read_move(args: &[&[u8]]) -> Result<Event, LineFault>
    ensures { result ≡ event_in (codes "move" ∷ map (λ word. word.now) args.now) }
{
    let [id, x, y, z] = args else {
        return Err(LineFault::Count);
    };
    let id = read_id(id)?;
    let at = read_point(x, y, z)?;
    Ok(Event::Move(id, at))
}

fn read_close(args: &[&[u8]]) -> Result<Event, LineFault>
    ensures { result ≡ event_in (codes "close" ∷ map (λ word. word.now) args.now) }
{
    match args {
        [] => Ok(Event::Close),
        _ => Err(LineFault::Count),
    }
}

fn read_ask(args: &[&[u8]]) -> Result<Event, LineFault>
    ensures { result ≡ event_in (codes "ask" ∷ map (λ word. word.now) args.now) }
{
    let [id, to] = args else {
        return Err(LineFault::Count);
    };
    let id = read_id(id)?;
    let to = read_id(to)?;
    Ok(Event::Ask(id, to))
}

fn read_need(args: &[&[u8]]) -> Result<Event, LineFault>
    ensures { result ≡ event_in (codes "need" ∷ map (λ word. word.now) args.now) }
{
    let [id, to, region] = args else {
        return Err(LineFault::Count);
    };
    let id = read_id(id)?;
    let to = read_id(to)?;
    let region = read_region(region)?;
    Ok(Event::Need(id, to, region))
}

fn read_packet(alloc: Global, args: &[&[u8]]) -> Result<Event, LineFault>
    ensures { (result ≡ Err LineFault.Memory)
        ⊎ (result ≡ event_in (codes "packet" ∷ map (λ word. word.now) args.now)) }
{
    let [id, bytes] = args else {
        return Err(LineFault::Count);
    };
    let id = read_id(id)?;
    let bytes = read_bytes(alloc, bytes)?;
    Ok(Event::Packet(id, bytes))
}

fn read_noise(args: &[&[u8]]) -> Result<Event, LineFault>
    ensures { result ≡ event_in (codes "noise" ∷ map (λ word. word.now) args.now) }
{
    let [id, size] = args else {
        return Err(LineFault::Count);
    };
    let id = read_id(id)?;
    let size = read_number(size, 0, MOST_NOISE)?;
    Ok(Event::Noise(id, size))
}

fn read_tear(args: &[&[u8]]) -> Result<Event, LineFault>
    ensures { result ≡ event_in (codes "tear" ∷ map (λ word. word.now) args.now) }
{
    let [id, size] = args else {
        return Err(LineFault::Count);
    };
    let id = read_id(id)?;
    let size = read_number(size, 0, LAST_ID)?;
    Ok(Event::Tear(id, size))
}
