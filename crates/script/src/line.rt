// Reads what a line of a script says.
ghost use Rattle.std.specs.Prelude.{◌≡◌};
ghost use Rattle.script.specs.Calls.{Asks, Says, OneCall, Wants, Wanting, asked_call, call_of, silent};
ghost use Rattle.script.specs.Reads.{Reads};
ghost use Rattle.script.specs.Words.{Blanks};

use crate::error::ReadError;
use crate::hex::read_hex;
use crate::keyword::{Keyword, find_keyword};
use crate::making::split_size;
use crate::number::first_number;
use crate::series::{read_series, three_numbers};
use crate::settings::{filter_parts, is_board, list_size};
use crate::sides::read_sides;
use crate::words::{only_blanks, past_blanks, split_word};
use std::alloc::Global;

#[derive(Drop)]
pub enum Call {
    // The tape of a new scheme.
    Scheme(Vec<u8>),
    List,
    // Cells are to be kept on a board.
    StoreBoard,
    // Cells are to be kept in a list of so many records.
    StoreList(u32),
    // A filter is to be set on an attribute, for the rights of a mask.
    Filter { attribute: u8, mask: u16 },
    // The tape of an opening.
    Open(Vec<u8>),
    // A command is asked for, with names for its parameters.
    Request { command: u8, names: Vec<u8> },
    // A right is asked about, in the cell of a row and a column.
    Rule { row: u8, column: u8, right: u8 },
    State,
    // The tapes of a certificate and of bans, to be checked.
    Check { certificate: Vec<u8>, bans: Vec<u8> },
    // A certificate is to be made in a buffer of this size, against the bans of a tape.
    Make { size: u32, bans: Vec<u8> },
    // The certificate that was made or accepted last is to be shown.
    Table,
}

// A call that takes no words.
fn lone_call(rest: &[u8], call: Call) -> Result<Call, ReadError>
    ensures { Reads asked_call (λ c. Blanks rest.now × (c ≡ asked_call call)) ⊥ result }
{
    only_blanks(rest)
        .then_some(call)
        .ok_or(ReadError::Unreadable)
}

fn read_store(rest: &[u8]) -> Result<Call, ReadError>
    ensures { Reads asked_call (Asks Keyword.Store rest.now) (Wants Keyword.Store rest.now) result }
{
    if is_board(rest) {
        return Ok(Call::StoreBoard);
    }
    let records = list_size(rest).ok_or(ReadError::Unreadable)?;
    Ok(Call::StoreList(records))
}

fn read_filter(rest: &[u8]) -> Result<Call, ReadError>
    ensures { Reads asked_call (Asks Keyword.Filter rest.now) (Wants Keyword.Filter rest.now) result }
{
    let (attribute, mask) = filter_parts(rest).ok_or(ReadError::Unreadable)?;
    Ok(Call::Filter { attribute, mask })
}

fn read_request(heap: Global, rest: &[u8]) -> Result<Call, ReadError>
    ensures { Reads asked_call (Asks Keyword.Request rest.now) (Wants Keyword.Request rest.now) result }
{
    let (command, rest) = first_number(rest).ok_or(ReadError::Unreadable)?;
    let names = read_series(heap, rest)?;
    Ok(Call::Request { command, names })
}

fn read_rule(rest: &[u8]) -> Result<Call, ReadError>
    ensures { Reads asked_call (Asks Keyword.Rule rest.now) (Wants Keyword.Rule rest.now) result }
{
    let (row, column, right) = three_numbers(rest).ok_or(ReadError::Unreadable)?;
    Ok(Call::Rule { row, column, right })
}

fn read_check(heap: Global, rest: &[u8]) -> Result<Call, ReadError>
    ensures { Reads asked_call (Asks Keyword.Check rest.now) (Wants Keyword.Check rest.now) result }
{
    let (certificate, bans) = read_sides(heap, rest)?;
    Ok(Call::Check { certificate, bans })
}

fn read_make(heap: Global, rest: &[u8]) -> Result<Call, ReadError>
    ensures { Reads asked_call (Asks Keyword.Make rest.now) (Wants Keyword.Make rest.now) result }
{
    let (size, text) = split_size(rest).ok_or(ReadError::Unreadable)?;
    let bans = read_hex(heap, text)?;
    Ok(Call::Make { size, bans })
}

// What a keyword asks for with `rest` after it.
fn read_call(heap: Global, key: Keyword, rest: &[u8]) -> Result<Call, ReadError>
    ensures { Reads asked_call (Asks key rest.now) (Wants key rest.now) result }
{
    match key {
        Keyword::Scheme => Ok(Call::Scheme(read_hex(heap, rest)?)),
        Keyword::List => lone_call(rest, Call::List),
        Keyword::Store => read_store(rest),
        Keyword::Filter => read_filter(rest),
        Keyword::Open => Ok(Call::Open(read_hex(heap, rest)?)),
        Keyword::Request => read_request(heap, rest),
        Keyword::Rule => read_rule(rest),
        Keyword::State => lone_call(rest, Call::State),
        Keyword::Check => read_check(heap, rest),
        Keyword::Make => read_make(heap, rest),
        Keyword::Table => lone_call(rest, Call::Table),
    }
}

// Nothing is left of the line, or only a remark.
fn is_silent(text: &[u8]) -> bool
    ensures { result ≡ silent text.now }
{
    matches!(text, [] | [b'#', ..])
}

// What a line calls for, if it is no blank line and no remark. Memory can be wanting only for the bytes of tapes and for
// the names of a request.
#[tactic(auto, using(crate::proofs::Saying::one_call))]
pub fn read_line(heap: Global, line: &[u8]) -> Result<Option<Call>, ReadError>
    ensures said { Reads call_of (Says line.now) (Wanting line.now) result }
    ensures one { OneCall }
{
    let text = past_blanks(line);
    if is_silent(text) {
        return Ok(None);
    }
    let (word, rest) = split_word(text);
    let key = find_keyword(word).ok_or(ReadError::Unreadable)?;
    Ok(Some(read_call(heap, key, rest)?))
}
