// A line of the host table.
ghost use Rattle.std.specs.Prelude.{◌≡◌};
ghost use Rattle.std.specs.Option.{option_map, option_copied};
ghost use Rattle.std.specs.List.{list_all};
ghost use Rattle.ibos_text.specs.Words.{words_of};
ghost use Rattle.ibos_origin.specs.HostLines as spec;
ghost use Rattle.ibos_origin.specs.HostLines.{host_line_in, host_line_by, only_word, own_in};
ghost use Rattle.ibos_origin.specs.HostLines.{gateway_in, named_in};
ghost use Rattle.ibos_origin.specs.HostLineViews.{host_line_of};

use crate::addresses::{addr_in, mac_in};
use ibos_text::next_word;

const MAX_NAME: usize = 253;

/// What a line of the host table says.
#[derive(Clone, Copy)]
pub enum HostLine<'a> {
    Nothing,
    Own { addr: u32, mac: u64 },
    Gateway { mac: u64 },
    Named { name: &'a [u8], addr: u32 },
}

/// What a line says, if it has one of the forms.
#[tactic(auto, unfolding(crate::specs::HostLines::host_line_in))]
pub fn read_host_line(line: &[u8]) -> Option<HostLine<'_>>
    ensures { option_map host_line_of result ≡ host_line_in line.now }
{
    if let [] | [b'#', ..] = line {
        return Some(HostLine::Nothing);
    }
    read_words(line)
}

#[tactic(auto, unfolding(crate::specs::HostLines::host_line_by))]
fn read_words(line: &[u8]) -> Option<HostLine<'_>>
    ensures { option_map host_line_of result ≡ host_line_by (words_of line.now) }
{
    let (command, rest) = next_word(line)?;
    if command == b"self".as_slice() {
        read_own(rest)
    } else if command == b"gateway".as_slice() {
        read_gateway(rest)
    } else if command == b"host".as_slice() {
        read_named(rest)
    } else {
        None
    }
}

fn read_own(line: &[u8]) -> Option<HostLine<'_>>
    ensures { option_map host_line_of result ≡ own_in (words_of line.now) }
{
    let (addr, rest) = next_word(line)?;
    let mac = last_word(rest)?;
    Some(HostLine::Own {
        addr: addr_in(addr)?,
        mac: mac_in(mac)?,
    })
}

fn read_gateway(line: &[u8]) -> Option<HostLine<'_>>
    ensures { option_map host_line_of result ≡ gateway_in (words_of line.now) }
{
    let mac = last_word(line)?;
    Some(HostLine::Gateway { mac: mac_in(mac)? })
}

fn read_named(line: &[u8]) -> Option<HostLine<'_>>
    ensures { option_map host_line_of result ≡ named_in (words_of line.now) }
{
    let (name, rest) = next_word(line)?;
    let addr = last_word(rest)?;
    if !is_name(name) {
        return None;
    }
    Some(HostLine::Named {
        name,
        addr: addr_in(addr)?,
    })
}

// The word of a line that has one.
fn last_word(line: &[u8]) -> Option<&[u8]>
    ensures { option_copied result ≡ only_word (words_of line.now) }
{
    let (word, rest) = next_word(line)?;
    if next_word(rest).is_some() {
        return None;
    }
    Some(word)
}

fn is_name(word: &[u8]) -> bool
    ensures { result ≡ spec.is_name word.now }
{
    !word.is_empty() && word.len() <= MAX_NAME && has_name_bytes(word)
}

fn has_name_bytes(word: &[u8]) -> bool
    ensures { result ≡ list_all spec.is_name_byte word.now }
{
    word.iter().all(|b| matches!(*b, b'a'..=b'z' | b'0'..=b'9' | b'-' | b'.' | b'_'))
}
