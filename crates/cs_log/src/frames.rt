ghost use Rattle.std.specs.Prelude.{◌≡◌, ◌<◌, ◌^◌, ◌++◌, List, ℕ, length, IfOk, IfSome, IfNone};
ghost use Rattle.cs_log.specs.Frames.{AreFramesOf, Fits, frame, IsTorn, whole_len};

use cs_piece::Piece;
use std::alloc::{AllocError, Global};
use std::marker::Model;

/// The whole frames from the start of some bytes: the place of each, and its payload.
#[derive(Debug, Drop)]
pub struct Frames {
    frames: Vec<(u64, Piece)>,
    whole: u64,
}

impl Model for Frames {
    ghost use Rattle.std.specs.Prelude.{◌≡◌, List, ℕ};
    ghost use Rattle.cs_log.specs.Frames.{whole_len};

    ghost Value = { List (ℕ × List ℕ) };

    ghost view = { λ frames. frames.frames.items };

    ghost invariant = { λ frames. frames.whole ≡ whole_len frames.frames.items };
}

impl Frames {
    pub fn len(&self) -> usize
        ensures { result ≡ length self.now }
    {
        self.frames.len()
    }

    pub fn as_slice(&self) -> &[(u64, Piece)]
        ensures { result.now ≡ self.now }
    {
        &self.frames
    }

    /// How many bytes the frames take. What is behind them is a torn tail.
    pub fn whole_len(&self) -> u64
        ensures { result ≡ whole_len self.now }
    {
        self.whole
    }
}

/// The whole frames from the start of the bytes. A torn tail is no fault.
pub fn scan(alloc: Global, bytes: &[u8]) -> Result<Frames, AllocError>
    ensures frames { IfOk result (λ frames. AreFramesOf bytes.now frames) }

    // There are no others.
    ensures only { IfOk result (λ frames. (others : List (ℕ × List ℕ)) → AreFramesOf bytes.now others
        → others ≡ frames) }
{
    let mut frames = Vec::new(alloc);
    let mut place = 0;
    let mut rest = bytes;
    while let Some((payload, behind)) = first_frame(rest) {
        frames.push((place, Piece::from_slice(alloc, payload)?))?;
        place += 4 + payload.len() as u64;
        rest = behind;
    }
    Ok(Frames {
        frames,
        whole: place,
    })
}

// The payload of the frame that the bytes begin with, and what is behind the frame.
fn first_frame(bytes: &[u8]) -> Option<(&[u8], &[u8])>
    ensures frame { IfSome result (λ found. bytes.now ≡ frame found.0.now ++ found.1.now) }
    ensures fits { IfSome result (λ found. Fits found.0.now) }
    ensures torn { IfNone result (IsTorn bytes.now) }
{
    let [a, b, c, d, rest @ ..] = bytes else {
        return None;
    };
    let len = u32::from_be_bytes([*a, *b, *c, *d]) as usize;
    if rest.len() < len {
        return None;
    }
    Some(rest.split_at(len))
}
