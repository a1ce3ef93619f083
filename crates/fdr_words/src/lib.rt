//! The command line: the arguments after the program's name, and the request that they make.
#![tactic(auto)]

ghost use Rattle.std.specs.Prelude.{◌≡◌, ◌↔◌, ◌≤◌, Err, Some, None, IfOk, IfSome, length, map, string_bytes};
ghost use Rattle.std.specs.Option.{option_map};
ghost use Rattle.fdr_words.specs.Forms.{form_of, form_of_uses, bare_form, path_form, paths_form, ring_form, seeded_form, image_path, table_path, writes_image, IsInBounds};
ghost use Rattle.fdr_words.specs.Views.{uses_view};
ghost use Rattle.fdr_words.specs.Words.{most_form_args, uses_of, value_in};
ghost use Rattle.fdr_words.specs.Request.{form_of_request};
ghost use Rattle.fdr_words.specs.declared.WordsFault.TheVariants as fault;

use crate::reader::read;
use crate::uses::{PlainWords, Uses, uses_of};
use fdr_slot::{MAX_PAYLOAD, MAX_SLOTS, MIN_PAYLOAD, MIN_SLOTS};
use fdr_table::{NoMemory, PathText, number_in};
use std::alloc::Global;

mod law;
mod reader;
mod uses;

pub use law::{options_may_be_anywhere, options_may_be_one_word_or_two};

/// How many arguments the longest form has.
const MAX_ARGS: usize = 7;

/// What the program is asked to do.
#[derive(Debug, Drop)]
pub enum Request {
    /// `check TABLE`: report on a parameter table.
    CheckTable {
        table: PathText,
    },
    /// `stream TABLE`: sample a trace of bus words into a stream of frames.
    StreamLine {
        table: PathText,
    },
    /// `listbits TABLE`: list the frames of a line of bits.
    ListBits {
        table: PathText,
    },
    /// `encode`: make the Harvard biphase levels of a line of bits.
    Encode,
    /// `decode`: read the bits of a line of Harvard biphase levels.
    Decode,
    /// `format TABLE IMAGE --slots N --payload P`: make the image of a ring of blocks.
    FormatImage {
        table: PathText,
        image: PathText,
        /// How many blocks the ring has room for, 4 to 65,536.
        slots: u32,
        /// How many bytes a block has at most, 64 to 4,096.
        payload: u32,
    },
    /// `record TABLE IMAGE`: sample a trace of bus words into frames, and record their stream in an image.
    RecordLine {
        table: PathText,
        image: PathText,
    },
    /// `recover IMAGE`: write the blocks of an image.
    RecoverImage {
        image: PathText,
    },
    /// `list TABLE IMAGE`: list the frames of the blocks of an image.
    ListImage {
        table: PathText,
        image: PathText,
    },
    /// `upgrade IMAGE`: make an image of version 1 one of version 2.
    Upgrade {
        image: PathText,
    },
    /// `salvage TABLE IMAGE`, also with `--slots N --payload P`: list each run of blocks that a damaged image still has.
    Salvage {
        table: PathText,
        image: PathText,
        /// How many blocks the ring has room for, 4 to 65,536, and how many bytes a block has at most, 64 to 4,096. Where they
        /// are given, they stand in place of what the image's header says.
        ring: Option<(u32, u32)>,
    },
    /// `exceed TABLE IMAGE`: list where parameters leave the limits that rules on the input line state.
    Exceed {
        table: PathText,
        image: PathText,
    },
    /// `drill TABLE IMAGE --seed S --frames F`: record a trace drawn from a seed in an image.
    Drill {
        table: PathText,
        image: PathText,
        /// What the trace is drawn from, 0 to 4,294,967,295.
        seed: u64,
        /// How many frames are drawn, 1 to 100,000.
        frames: u32,
    },
}

/// Why the arguments make no request.
#[derive(Clone, Copy, Debug, PartialEq, Eq)]
pub enum WordsFault {
    /// The arguments aren't those of a command.
    Usage,
    /// There wasn't enough memory.
    NoMemory,
}

impl From<NoMemory> for WordsFault {
    ghost use Rattle.std.specs.Prelude.{◌≡◌};
    ghost use Rattle.fdr_words.specs.declared.WordsFault.TheVariants as fault;

    ghost from_gives = { λ _ result. result ≡ fault.NoMemory };

    fn from(_error: NoMemory) -> WordsFault {
        WordsFault::NoMemory
    }
}

impl Request {
    /// The path of the table, where the command has one.
    pub fn table(&self) -> Option<&str>
        ensures { option_map (λ path. path.now) result ≡ table_path (form_of_request self.now) }
    {
        match self {
            Request::CheckTable { table } => Some(table.text()),
            Request::StreamLine { table } => Some(table.text()),
            Request::ListBits { table } => Some(table.text()),
            Request::Encode | Request::Decode => None,
            Request::FormatImage { table, .. } => Some(table.text()),
            Request::RecordLine { table, .. } => Some(table.text()),
            Request::RecoverImage { .. } => None,
            Request::ListImage { table, .. } => Some(table.text()),
            Request::Upgrade { .. } => None,
            Request::Salvage { table, .. } => Some(table.text()),
            Request::Exceed { table, .. } => Some(table.text()),
            Request::Drill { table, .. } => Some(table.text()),
        }
    }

    /// The path of the image, where the command has one.
    pub fn image(&self) -> Option<&str>
        ensures { option_map (λ path. path.now) result ≡ image_path (form_of_request self.now) }
    {
        match self {
            Request::CheckTable { .. } => None,
            Request::StreamLine { .. } => None,
            Request::ListBits { .. } => None,
            Request::Encode | Request::Decode => None,
            Request::FormatImage { image, .. } => Some(image.text()),
            Request::RecordLine { image, .. } => Some(image.text()),
            Request::RecoverImage { image } => Some(image.text()),
            Request::ListImage { image, .. } => Some(image.text()),
            Request::Upgrade { image } => Some(image.text()),
            Request::Salvage { image, .. } => Some(image.text()),
            Request::Exceed { image, .. } => Some(image.text()),
            Request::Drill { image, .. } => Some(image.text()),
        }
    }

    /// Whether the command may write the image.
    pub fn writes(&self) -> bool
        ensures { result ≡ writes_image (form_of_request self.now) }
    {
        match self {
            Request::FormatImage { .. }
            | Request::RecordLine { .. }
            | Request::Upgrade { .. }
            | Request::Drill { .. } => true,
            Request::CheckTable { .. }
            | Request::StreamLine { .. }
            | Request::ListBits { .. }
            | Request::Encode
            | Request::Decode
            | Request::RecoverImage { .. }
            | Request::ListImage { .. }
            | Request::Salvage { .. }
            | Request::Exceed { .. } => false,
        }
    }
}

/// A number of 1 to 10 digits within bounds.
#[tactic(auto, unfolding(crate::specs::Words::value_in))]
fn value_in(value: &[u8], low: u32, high: u32) -> Option<u32>
    ensures exactly { result ≡ value_in low high value.now }
    ensures within { IfSome result (λ n. (low ≤ n) × (n ≤ high)) }
{
    if 10 < value.len() {
        return None;
    }
    let number = number_in(value, u64::from(low), u64::from(high))?;
    Some(number as u32)
}

/// What the argument of a command with no path asks for.
fn bare_request(command: &str) -> Result<Request, WordsFault>
    ensures usage { (result ≡ Err fault.Usage) ↔ (bare_form command.now ≡ None) }
    ensures form { IfOk result (λ request. bare_form command.now ≡ Some (form_of_request request)) }
{
    if command == "encode" {
        return Ok(Request::Encode);
    }
    if command != "decode" {
        return Err(WordsFault::Usage);
    }
    Ok(Request::Decode)
}

/// What the arguments of a command with one path ask for.
fn path_request(alloc: Global, command: &str, path: &str) -> Result<Request, WordsFault>
    ensures usage { (result ≡ Err fault.Usage) ↔ (path_form command.now path.now ≡ None) }
    ensures form { IfOk result (λ request. path_form command.now path.now ≡ Some (form_of_request request)) }
{
    if command == "check" {
        let table = PathText::new(alloc, path)?;
        return Ok(Request::CheckTable { table });
    }
    if command == "stream" {
        let table = PathText::new(alloc, path)?;
        return Ok(Request::StreamLine { table });
    }
    if command == "listbits" {
        let table = PathText::new(alloc, path)?;
        return Ok(Request::ListBits { table });
    }
    if command == "recover" {
        let image = PathText::new(alloc, path)?;
        return Ok(Request::RecoverImage { image });
    }
    if command != "upgrade" {
        return Err(WordsFault::Usage);
    }
    let image = PathText::new(alloc, path)?;
    Ok(Request::Upgrade { image })
}

/// The paths of a table and of an image.
fn both_paths(alloc: Global, table: &str, image: &str) -> Result<(PathText, PathText), NoMemory>
    ensures { IfOk result (λ paths. (paths.0 ≡ table.now) × (paths.1 ≡ image.now)) }
{
    Ok((PathText::new(alloc, table)?, PathText::new(alloc, image)?))
}

/// What the arguments of a command with two paths and no options ask for.
fn paths_request(
    alloc: Global,
    command: &str,
    table: &str,
    image: &str,
) -> Result<Request, WordsFault>
    ensures usage { (result ≡ Err fault.Usage) ↔ (paths_form command.now table.now image.now ≡ None) }
    ensures form { IfOk result (λ request. paths_form command.now table.now image.now ≡ Some (form_of_request request)) }
{
    if command == "record" {
        let (table, image) = both_paths(alloc, table, image)?;
        return Ok(Request::RecordLine { table, image });
    }
    if command == "list" {
        let (table, image) = both_paths(alloc, table, image)?;
        return Ok(Request::ListImage { table, image });
    }
    if command == "salvage" {
        let (table, image) = both_paths(alloc, table, image)?;
        return Ok(Request::Salvage {
            table,
            image,
            ring: None,
        });
    }
    if command != "exceed" {
        return Err(WordsFault::Usage);
    }
    let (table, image) = both_paths(alloc, table, image)?;
    Ok(Request::Exceed { table, image })
}

/// What the arguments of a command with two paths and the options of a ring ask for.
fn ring_request(
    alloc: Global,
    command: &str,
    table: &str,
    image: &str,
    slots: &[u8],
    payload: &[u8],
) -> Result<Request, WordsFault>
    ensures usage { (result ≡ Err fault.Usage) ↔ (ring_form command.now table.now image.now slots.now payload.now ≡ None) }
    ensures form { IfOk result (λ request. ring_form command.now table.now image.now slots.now payload.now ≡ Some (form_of_request request)) }
    ensures limits { IfOk result (λ request. IsInBounds (form_of_request request)) }
{
    let salvages = command == "salvage";
    if command != "format" && !salvages {
        return Err(WordsFault::Usage);
    }
    let slots = value_in(slots, MIN_SLOTS, MAX_SLOTS).ok_or(WordsFault::Usage)?;
    let payload = value_in(payload, MIN_PAYLOAD, MAX_PAYLOAD as u32).ok_or(WordsFault::Usage)?;
    let (table, image) = both_paths(alloc, table, image)?;
    if salvages {
        let ring = Some((slots, payload));
        return Ok(Request::Salvage { table, image, ring });
    }
    Ok(Request::FormatImage {
        table,
        image,
        slots,
        payload,
    })
}

/// What the arguments of a command with two paths and the options of a drill ask for.
fn seeded_request(
    alloc: Global,
    command: &str,
    table: &str,
    image: &str,
    seed: &[u8],
    frames: &[u8],
) -> Result<Request, WordsFault>
    ensures usage { (result ≡ Err fault.Usage) ↔ (seeded_form command.now table.now image.now seed.now frames.now ≡ None) }
    ensures form { IfOk result (λ request. seeded_form command.now table.now image.now seed.now frames.now ≡ Some (form_of_request request)) }
    ensures limits { IfOk result (λ request. IsInBounds (form_of_request request)) }
{
    if command != "drill" {
        return Err(WordsFault::Usage);
    }
    let seed = value_in(seed, 0, 4_294_967_295).ok_or(WordsFault::Usage)?;
    let frames = value_in(frames, 1, 100_000).ok_or(WordsFault::Usage)?;
    let (table, image) = both_paths(alloc, table, image)?;
    Ok(Request::Drill {
        table,
        image,
        seed: u64::from(seed),
        frames,
    })
}

/// What the uses of arguments ask for.
fn request_of(alloc: Global, uses: Uses<'_>) -> Result<Request, WordsFault>
    ensures usage { (result ≡ Err fault.Usage) ↔ (form_of_uses (uses_view uses.entry) ≡ None) }
    ensures form { IfOk result (λ request. form_of_uses (uses_view uses.entry) ≡ Some (form_of_request request)) }
    ensures limits { IfOk result (λ request. IsInBounds (form_of_request request)) }
{
    match (uses.plain, uses.slots, uses.payload, uses.seed, uses.frames) {
        (PlainWords::One(command), None, None, None, None) => bare_request(command),
        (PlainWords::Two(command, path), None, None, None, None) => {
            path_request(alloc, command, path)
        }
        (PlainWords::Three(command, table, image), None, None, None, None) => {
            paths_request(alloc, command, table, image)
        }
        (PlainWords::Three(command, table, image), Some(slots), Some(payload), None, None) => {
            ring_request(alloc, command, table, image, slots, payload)
        }
        (PlainWords::Three(command, table, image), None, None, Some(seed), Some(frames)) => {
            seeded_request(alloc, command, table, image, seed, frames)
        }
        _ => Err(WordsFault::Usage),
    }
}

/// The uses of the arguments, read by `clap`. Where there is no memory for `clap`, they are read without it, so that arguments of
/// no form are refused as such all the same.
fn uses_in_words(alloc: Global, args: &[String]) -> Option<Uses<'_>>
    requires { length args.now ≤ most_form_args }
    ensures { option_map uses_view result ≡ uses_of (map string_bytes args.now) }
{
    match read(alloc, args) {
        Ok(uses) => Some(uses),
        Err(WordsFault::Usage) => None,
        Err(WordsFault::NoMemory) => uses_of(args),
    }
}

/// The request of the arguments after the program's name.
///
/// More arguments than the longest form has are refused before any memory is taken.
#[tactic(auto, unfolding(crate::specs::Forms::form_of))]
pub fn read_words(alloc: Global, args: &[String]) -> Result<Request, WordsFault>
    ensures usage { (result ≡ Err fault.Usage) ↔ (form_of (map string_bytes args.now) ≡ None) }
    ensures form { IfOk result (λ request. form_of (map string_bytes args.now) ≡ Some (form_of_request request)) }
    ensures limits { IfOk result (λ request. IsInBounds (form_of_request request)) }
{
    if MAX_ARGS < args.len() {
        return Err(WordsFault::Usage);
    }
    match uses_in_words(alloc, args) {
        Some(uses) => request_of(alloc, uses),
        None => Err(WordsFault::Usage),
    }
}
