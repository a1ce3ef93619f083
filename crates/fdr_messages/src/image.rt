//! Why an image is refused, in words.

ghost use Rattle.std.specs.Prelude.{◌≡◌, ◌≤◌, length};
ghost use Rattle.fdr_messages.specs.Messages.{image_fault_words, image_message, words_message};

use fdr_line::Line;
use fdr_slot::ImageFault;

/// The message that an image is refused for this fault.
pub fn image_message(program: &[u8], fault: &ImageFault) -> Line
    requires { length program.now ≤ 12 }
    ensures { result ≡ image_message program.now fault.now }
{
    let mut line = Line::new();
    line.add(program);
    line.add(b": image: ");
    line.add(image_fault_words(fault));
    line
}

/// The message that an image is for frames of so many words in a subframe, and a table of so many.
#[tactic(auto, using(fdr_line::proofs::Lengths::field_numbers))]
pub fn words_message(program: &[u8], image: u32, table: u32) -> Line
    requires { length program.now ≤ 12 }
    ensures { result ≡ words_message program.now image table }
{
    let mut line = Line::new();
    line.add(program);
    line.add(b": image has ");
    line.add_number(u64::from(image));
    line.add(b" words, table has ");
    line.add_number(u64::from(table));
    line
}

/// What is wrong with the image, in words.
pub fn image_fault_words(fault: &ImageFault) -> &'static [u8]
    ensures words { result.now ≡ image_fault_words fault.now }
    ensures short { length result.now ≤ 30 }
{
    match fault {
        ImageFault::Small => b"too small",
        ImageFault::Closed => b"header closed",
        ImageFault::Magic => b"not a recorder image",
        ImageFault::Geometry => b"geometry",
        ImageFault::Short => b"shorter than its ring",
    }
}
