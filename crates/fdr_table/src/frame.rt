use std::marker::Model;

/// The shape of a frame, and where its counter stands.
#[derive(Clone, Copy, Debug)]
pub struct Frame {
    /// Words in a subframe: 64, 128, 256, 512 or 1024.
    pub words: u32,
    /// The word that carries the frame counter, 2 to 1024.
    pub cword: u32,
    /// The subframe that carries the frame counter, 1 to 4.
    pub csub: u8,
}

impl Model for Frame {
    ghost use Rattle.fdr_table.specs.Rows.{FrameRow};

    ghost Value = { FrameRow };

    ghost use Rattle.fdr_table.specs.Views.{frame_view};
    ghost use Rattle.fdr_table.specs.Ranges.{IsFrameInRange};

    ghost view = { frame_view };

    ghost invariant = { λ f. IsFrameInRange (frame_view f) };

    ghost inverse = { λ f. record { words = f.words; cword = f.cword; csub = f.csub } };
}
