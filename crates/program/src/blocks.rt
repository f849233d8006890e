//! The questions of a conversation, read from the standard input one at a time.
//!
//! A question is read byte by byte, so that no byte of the next one is waited for.

ghost use Rattle.std.specs.Prelude.{◌≡◌, ◌++◌, ◌∷◌, ◌==◌, [], List, ℕ, IfErr, IfOk, OnErr, OnOk, map, not};
ghost use Rattle.std.specs.Prelude.{string_bytes, true};
ghost use Rattle.std.specs.Io.KnownBytes.{Consumes};
ghost use Rattle.std.specs.List.{slice_split};
ghost use Rattle.program.specs.Blocks as spec;

use std::alloc::{AllocError, Global};
use std::io::Read;
use std::str;

/// The most bytes of a question.
pub(crate) const MOST_QUESTION_BYTES: usize = 65_536;

/// A law: the most bytes of a question in numbers.
pub fn question_limit_is_as_stated()
    ensures { MOST_QUESTION_BYTES ≡ 65536 }
{}

/// The end of a line.
const LF: u8 = b'\n';

/// Why no words are read of a question.
#[derive(Clone, Copy, PartialEq, Eq)]
pub(crate) enum BlockFault {
    /// It has more than 65,536 bytes.
    TooLong,
    /// One of its words isn't UTF-8.
    NotText,
    /// Out of memory.
    Memory,
}

impl From<AllocError> for BlockFault {
    ghost use Rattle.std.specs.Prelude.{◌≡◌};
    ghost use Rattle.program.specs.declared.blocks.BlockFault.TheVariants.{Memory};

    ghost from_gives = { λ _ fault. fault ≡ Memory };

    fn from(_: AllocError) -> BlockFault {
        BlockFault::Memory
    }
}

/// A read of the input failed.
#[derive(Clone, Copy, PartialEq, Eq)]
pub(crate) struct InputFault;

/// A question that was read to its end.
#[derive(Drop)]
pub(crate) struct Block {
    /// Its words, or why none are read.
    pub words: Result<Vec<String>, BlockFault>,
    /// Whether an empty line ended it; else the input did.
    pub is_closed: bool,
}

/// The bytes of a question, as far as they are read.
#[derive(Drop)]
pub(crate) enum Gathered {
    Bytes(Vec<u8>),
    /// There are more than a question may have.
    TooMany,
    /// Out of memory; at least one was read.
    Memory,
}

/// Reads the next question to its end, if there is one.
pub(crate) fn next_block<I: Read>(alloc: Global, input: &mut I) -> Result<Option<Block>, InputFault>
    ensures block { IfOk result (λ block. spec.IsNext (I.remaining input.old) (I.remaining input.new) block) }
    ensures fault { OnErr result ((lost : List ℕ) × Consumes (I.remaining input.old) (I.remaining input.new) lost) }
{
    let mut gathered = Gathered::Bytes(Vec::new(alloc));
    let mut begins = true;
    for _ in 0..u64::MAX {
        let Some(byte) = next_byte(input)? else {
            return Ok(last_block(alloc, gathered));
        };
        if begins && byte == LF {
            return Ok(Some(closed_block(alloc, gathered)));
        }
        gathered = with_byte(gathered, byte);
        begins = byte == LF;
    }
    Err(InputFault)
}

/// The next byte, if there is one.
fn next_byte<I: Read>(input: &mut I) -> Result<Option<u8>, InputFault>
    ensures byte { IfOk result (λ byte. spec.IsByte (I.remaining input.old) (I.remaining input.new) byte) }
    ensures fault { OnErr result (Consumes (I.remaining input.old) (I.remaining input.new) []) }
{
    let mut chunk = [0u8; 1];
    match input.read(&mut chunk) {
        Ok(0) => Ok(None),
        Ok(_) => Ok(Some(chunk[0])),
        Err(_) => Err(InputFault),
    }
}

/// The bytes with one more.
fn with_byte(gathered: Gathered, byte: u8) -> Gathered
    ensures { (read : List ℕ) → spec.Gathers read gathered → spec.Gathers (read ++ byte ∷ []) result }
{
    match gathered {
        Gathered::Bytes(mut bytes) => {
            if bytes.len() >= MOST_QUESTION_BYTES {
                return Gathered::TooMany;
            }
            match bytes.push(byte) {
                Ok(()) => Gathered::Bytes(bytes),
                Err(_) => Gathered::Memory,
            }
        }
        Gathered::TooMany => Gathered::TooMany,
        Gathered::Memory => Gathered::Memory,
    }
}

/// The question of bytes that an empty line ended.
fn closed_block(alloc: Global, gathered: Gathered) -> Block
    ensures closed { result.is_closed ≡ true }
    ensures words { (read : List ℕ) → spec.Gathers read gathered → spec.IsReadOf read result.words }
{
    Block {
        words: words_of(alloc, gathered),
        is_closed: true,
    }
}

/// The question of bytes that the input's end ended, if there are some.
fn last_block(alloc: Global, gathered: Gathered) -> Option<Block>
    ensures { (read : List ℕ) → spec.Gathers read gathered → spec.IsLast read result }
{
    if is_nothing(&gathered) {
        return None;
    }
    Some(Block {
        words: words_of(alloc, gathered),
        is_closed: false,
    })
}

/// Whether no byte was read.
fn is_nothing(gathered: &Gathered) -> bool
    ensures { (read : List ℕ) → spec.Gathers read gathered.now → result ≡ not (spec.is_word read) }
{
    match gathered {
        Gathered::Bytes(bytes) => bytes.is_empty(),
        Gathered::TooMany | Gathered::Memory => false,
    }
}

/// The words of the bytes of a block.
fn words_of(alloc: Global, gathered: Gathered) -> Result<Vec<String>, BlockFault>
    ensures { (read : List ℕ) → spec.Gathers read gathered → spec.IsReadOf read result }
{
    match gathered {
        Gathered::Bytes(bytes) => words_in(alloc, &bytes),
        Gathered::TooMany => Err(BlockFault::TooLong),
        Gathered::Memory => Err(BlockFault::Memory),
    }
}

/// The words of some bytes: their lines that aren't empty.
fn words_in(alloc: Global, bytes: &[u8]) -> Result<Vec<String>, BlockFault>
    ensures words { IfOk result (λ words. map string_bytes words.items ≡ spec.words_of bytes.now) }
    ensures fault { IfErr result (λ fault. spec.TellsWords fault (spec.words_of bytes.now)) }
{
    let lines = lines(alloc, bytes)?;
    words_among(alloc, &lines)
}

/// The lines of some bytes: what stands before, between and after the ends of lines.
fn lines(alloc: Global, bytes: &[u8]) -> Result<Vec<&[u8]>, AllocError>
    ensures { IfOk result (λ lines. map (λ line. line.now) lines.items ≡ slice_split (λ b. b == 10) bytes.now) }
{
    bytes.split(|byte| *byte == LF).collect(alloc)
}

/// Those lines that aren't empty.
fn words_among(alloc: Global, lines: &[&[u8]]) -> Result<Vec<String>, BlockFault>
    ensures words { IfOk result (λ words. map string_bytes words.items
        ≡ spec.words_in (map (λ line. line.now) lines.now)) }
    ensures fault { IfErr result (λ fault. spec.TellsWords fault (spec.words_in (map (λ line. line.now) lines.now))) }
{
    let mut words = Vec::new(alloc);
    for line in lines {
        match add_word(alloc, &mut words, line) {
            Ok(()) => {}
            Err(fault) => return Err(fault),
        }
    }
    Ok(words)
}

/// Adds a line that isn't empty.
#[tactic(auto, using(crate::proofs::ReplyFacts::words_of_one, crate::proofs::ReplyFacts::words_of_none))]
fn add_word(alloc: Global, words: &mut Vec<String>, line: &[u8]) -> Result<(), BlockFault>
    ensures words { OnOk result (map string_bytes words.new.items
        ≡ map string_bytes words.old.items ++ spec.words_in (line.now ∷ [])) }
    ensures fault { IfErr result (λ fault. spec.TellsWords fault (spec.words_in (line.now ∷ []))) }
{
    if !is_word(line) {
        return Ok(());
    }
    match word(alloc, line) {
        Ok(word) => match words.push(word) {
            Ok(()) => Ok(()),
            Err(_) => Err(BlockFault::Memory),
        },
        Err(fault) => Err(fault),
    }
}

/// A word.
fn word(alloc: Global, line: &[u8]) -> Result<String, BlockFault>
    ensures word { IfOk result (λ word. string_bytes word ≡ line.now) }
    ensures fault { IfErr result (λ fault. spec.TellsWord fault line.now) }
{
    match str::from_utf8(line) {
        Ok(text) => Ok(String::from_str(alloc, text)?),
        Err(_) => Err(BlockFault::NotText),
    }
}

/// Whether a line is a word.
fn is_word(line: &[u8]) -> bool
    ensures { result ≡ spec.is_word line.now }
{
    !line.is_empty()
}
