//! Frames with an altitude and a part of a position.

ghost use Rattle.std.specs.Prelude.{◌<◌, All};

use fdr_frame::SYNC;

/// A frame of four subframes of 64 words: its counter, and words 10 and 20 of its first subframe.
pub fn frame_of(counter: u16, altitude: u16, position: u16) -> [u16; 256]
    requires counter { counter < 4096 }
    requires altitude { altitude < 4096 }
    requires position { position < 4096 }
    ensures { All (λ word. word < 4096) result }
{
    let mut words = [0; 256];
    words[0] = SYNC[0];
    words[1] = counter;
    words[9] = altitude;
    words[19] = position;
    words[64] = SYNC[1];
    words[128] = SYNC[2];
    words[192] = SYNC[3];
    words
}
