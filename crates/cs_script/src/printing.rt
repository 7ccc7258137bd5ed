//! From an event to its line.

ghost use Rattle.std.specs.Prelude.{◌≡◌, IfOk};
ghost use Rattle.std.specs.String.{string_bytes};
ghost use Rattle.cs_script.specs.Event.{IsEvent};
ghost use Rattle.cs_script.specs.Grammar.{event_of};
ghost use Rattle.cs_script.specs.Spelling.{bytes_text, mode_text, spelling};

use crate::{Event, Line};
use cs_base::Mode;
use std::alloc::{AllocError, Global};

/// The line that says the event, without an LF.
pub fn print_event(alloc: Global, e: &Event) -> Result<Line, AllocError>
    requires { IsEvent e.now }
    ensures spelt { IfOk result (λ line. line ≡ spelling e.now) }
    ensures read { IfOk result (λ line. event_of line ≡ Ok e.now) }
{
    let text = event_text(alloc, e)?;
    Ok(Line::from_vec(text.into_bytes()))
}

// The same as a text.
#[tactic(auto, unfolding(crate::specs::Spelling::spelling))]
fn event_text(alloc: Global, event: &Event) -> Result<String, AllocError>
    ensures { IfOk result (λ text. string_bytes text ≡ spelling event.now) }
{
    match event {
        Event::Lead(id, addr, at) => format!(in alloc; "lead {id} {addr} {at}"),
        Event::Boot(id, addr, at, mode) => {
            let mode = mode_word(*mode);
            format!(in alloc; "boot {id} {addr} {at} {mode}")
        }
        Event::Home(id, addr) => format!(in alloc; "home {id} {addr}"),
        Event::Join(id) => format!(in alloc; "join {id}"),
        Event::Leave(id) => format!(in alloc; "leave {id}"),
        Event::Flush(id) => format!(in alloc; "flush {id}"),
        Event::Move(id, at) => format!(in alloc; "move {id} {at}"),
        Event::Close => format!(in alloc; "close"),
        Event::Ask(id, to) => format!(in alloc; "ask {id} {to}"),
        Event::Need(id, to, region) => format!(in alloc; "need {id} {to} {region}"),
        Event::Deliver(number) => format!(in alloc; "deliver {number}"),
        Event::Lose(number) => format!(in alloc; "lose {number}"),
        Event::Settle(rounds) => format!(in alloc; "settle {rounds}"),
        Event::Packet(id, bytes) => {
            let digits = digits_of(alloc, bytes)?;
            format!(in alloc; "packet {id} {digits}")
        }
        Event::Noise(id, size) => format!(in alloc; "noise {id} {size}"),
        Event::Crash(id) => format!(in alloc; "crash {id}"),
        Event::Restart(id) => format!(in alloc; "restart {id}"),
        Event::Tear(id, size) => format!(in alloc; "tear {id} {size}"),
        Event::Print(id) => format!(in alloc; "print {id}"),
    }
}

fn mode_word(mode: Mode) -> &'static str
    ensures { result.now ≡ mode_text mode }
{
    match mode {
        Mode::Partial => "partial",
        Mode::Full => "full",
    }
}

// Two digits in lower case for each byte.
fn digits_of(alloc: Global, bytes: &Line) -> Result<String, AllocError>
    ensures { IfOk result (λ text. string_bytes text ≡ bytes_text bytes.now) }
{
    if bytes.is_empty() {
        String::from_str(alloc, "-")
    } else {
        hex::encode(alloc, bytes.as_slice())
    }
}
