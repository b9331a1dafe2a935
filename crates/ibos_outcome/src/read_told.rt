// The items that instances are told, each read from the fields behind its kind.
ghost use Rattle.std.specs.Prelude.{◌≡◌, IfOk, IfSome};
ghost use Rattle.ibos_kinds.specs.declared.outcome.Item.TheVariants.{Opened, Moved, KeyTo, ClickTo};
ghost use Rattle.ibos_kinds.specs.declared.outcome.Item.TheVariants.{Cookies, Arrived, Home};
ghost use Rattle.ibos_kinds.specs.declared.outcome.Item.TheVariants.{VersionIs, RequestIs, Object};
ghost use Rattle.ibos_kinds.specs.declared.outcome.Item.TheVariants.{NoObject};
ghost use Rattle.ibos_kinds.specs.Limits.{IsNamed};
ghost use Rattle.ibos_fields.specs.Fields.{hex_in};
ghost use Rattle.ibos_outcome.specs.Canonical.{IsCanonicalItem};
ghost use Rattle.ibos_outcome.specs.Readings.{field, last, told_in, flow_item, flow_in, port_in};
ghost use Rattle.ibos_outcome.specs.Readings.{addr_in, printable_in, cookies_in, byte_in};
ghost use Rattle.ibos_outcome.specs.Readings.{small_in, count_in};

use crate::words::{cut, read_addr, read_byte, read_cookies, read_printable};
use ibos_fields::{read_hex, read_number};
use ibos_kinds::{Endpoint, Instance, Item, Memory};
use std::alloc::Global;

/// Numbers of requests, versions and sends are below this.
pub const COUNTS: u64 = 1 << 32;

/// Numbers of rows, columns and buffers.
pub const SMALL: u64 = 1 << 8;

const PORTS: u64 = 1 << 16;

const FLOWS: u64 = 16;

/// What an instance is told, of this kind.
#[tactic(auto, unfolding(crate::specs::Readings::told_in))]
pub fn read_told(
    alloc: Global,
    who: Instance,
    kind: &[u8],
    line: &[u8],
) -> Result<Option<Item>, Memory>
    requires named { IsNamed who }
    ensures item { IfOk result (λ item. item ≡ told_in who kind.now line.now) }
    ensures canonical { IfOk result (λ item. IfSome item IsCanonicalItem) }
{
    if kind == b"opened".as_slice() {
        return read_opened(alloc, who, line);
    }
    if kind == b"at".as_slice() {
        return read_moved(alloc, who, line);
    }
    if kind == b"ended".as_slice() {
        return Ok(Some(Item::Ended { who }));
    }
    if kind == b"key".as_slice() {
        return Ok(read_key_told(who, line));
    }
    if kind == b"click".as_slice() {
        return Ok(read_click(who, line));
    }
    if kind == b"cookies".as_slice() {
        return read_cookies_told(alloc, who, line);
    }
    if kind == b"flow".as_slice() {
        return Ok(read_flow(who, line));
    }
    if kind == b"frame".as_slice() {
        return read_frame(alloc, who, line);
    }
    if kind == b"home".as_slice() {
        return Ok(read_home(who, line));
    }
    if kind == b"version".as_slice() {
        return Ok(read_version(who, line));
    }
    if kind == b"request".as_slice() {
        return Ok(read_request(who, line));
    }
    if kind == b"object".as_slice() {
        return read_object(alloc, who, line);
    }
    if kind == b"none".as_slice() {
        return Ok(read_none(who, line));
    }
    Ok(None)
}

fn read_opened(alloc: Global, who: Instance, line: &[u8]) -> Result<Option<Item>, Memory>
    requires named { IsNamed who }
    ensures item { IfOk result (λ item. item ≡ last printable_in (Opened who) line.now) }
    ensures canonical { IfOk result (λ item. IfSome item IsCanonicalItem) }
{
    let Some(url) = read_printable(alloc, line)? else {
        return Ok(None);
    };
    Ok(Some(Item::Opened { who, url }))
}

fn read_moved(alloc: Global, who: Instance, line: &[u8]) -> Result<Option<Item>, Memory>
    requires named { IsNamed who }
    ensures item { IfOk result (λ item. item ≡ last printable_in (Moved who) line.now) }
    ensures canonical { IfOk result (λ item. IfSome item IsCanonicalItem) }
{
    let Some(url) = read_printable(alloc, line)? else {
        return Ok(None);
    };
    Ok(Some(Item::Moved { who, url }))
}

fn read_key_told(who: Instance, line: &[u8]) -> Option<Item>
    requires named { IsNamed who }
    ensures item { result ≡ last byte_in (KeyTo who) line.now }
    ensures canonical { IfSome result IsCanonicalItem }
{
    let byte = read_byte(line)?;
    Some(Item::KeyTo { who, byte })
}

fn read_click(who: Instance, line: &[u8]) -> Option<Item>
    requires named { IsNamed who }
    ensures item { result ≡ field small_in (last small_in) (ClickTo who) line.now }
    ensures canonical { IfSome result IsCanonicalItem }
{
    let (row, col) = cut(line, b' ');
    let row = read_number(SMALL, row)?;
    let col = read_number(SMALL, col)?;
    Some(Item::ClickTo {
        who,
        row: row as u8,
        col: col as u8,
    })
}

fn read_cookies_told(alloc: Global, who: Instance, line: &[u8]) -> Result<Option<Item>, Memory>
    requires named { IsNamed who }
    ensures item { IfOk result (λ item. item ≡ last cookies_in (Cookies who) line.now) }
    ensures canonical { IfOk result (λ item. IfSome item IsCanonicalItem) }
{
    let Some(text) = read_cookies(alloc, line)? else {
        return Ok(None);
    };
    Ok(Some(Item::Cookies { who, text }))
}

fn read_flow(who: Instance, line: &[u8]) -> Option<Item>
    requires named { IsNamed who }
    ensures item { result ≡
        field flow_in (field port_in (field addr_in (last port_in))) (flow_item who) line.now }
    ensures canonical { IfSome result IsCanonicalItem }
{
    let (flow, rest) = cut(line, b' ');
    let (port, rest) = cut(rest, b' ');
    let (addr, other) = cut(rest, b' ');
    let flow = read_number(FLOWS, flow)?;
    let port = read_number(PORTS, port)?;
    let addr = read_addr(addr)?;
    let other = read_number(PORTS, other)?;
    Some(Item::FlowIs {
        who,
        flow: flow as u8,
        port: port as u16,
        remote: Endpoint {
            addr,
            port: other as u16,
        },
    })
}

fn read_frame(alloc: Global, who: Instance, line: &[u8]) -> Result<Option<Item>, Memory>
    requires named { IsNamed who }
    ensures item { IfOk result (λ item. item ≡ field flow_in (last hex_in) (Arrived who) line.now) }
    ensures canonical { IfOk result (λ item. IfSome item IsCanonicalItem) }
{
    let (flow, bytes) = cut(line, b' ');
    let Some(flow) = read_number(FLOWS, flow) else {
        return Ok(None);
    };
    let Some(bytes) = read_hex(alloc, bytes)? else {
        return Ok(None);
    };
    Ok(Some(Item::Arrived {
        who,
        flow: flow as u8,
        bytes,
    }))
}

fn read_home(who: Instance, line: &[u8]) -> Option<Item>
    requires named { IsNamed who }
    ensures item { result ≡ last small_in (Home who) line.now }
    ensures canonical { IfSome result IsCanonicalItem }
{
    let buffer = read_number(SMALL, line)?;
    Some(Item::Home {
        who,
        buffer: buffer as u8,
    })
}

fn read_version(who: Instance, line: &[u8]) -> Option<Item>
    requires named { IsNamed who }
    ensures item { result ≡ last count_in (VersionIs who) line.now }
    ensures canonical { IfSome result IsCanonicalItem }
{
    let version = read_number(COUNTS, line)?;
    Some(Item::VersionIs {
        who,
        version: version as u32,
    })
}

fn read_request(who: Instance, line: &[u8]) -> Option<Item>
    requires named { IsNamed who }
    ensures item { result ≡ last count_in (RequestIs who) line.now }
    ensures canonical { IfSome result IsCanonicalItem }
{
    let request = read_number(COUNTS, line)?;
    Some(Item::RequestIs {
        who,
        request: request as u32,
    })
}

fn read_object(alloc: Global, who: Instance, line: &[u8]) -> Result<Option<Item>, Memory>
    requires named { IsNamed who }
    ensures item { IfOk result (λ item. item ≡
        field count_in (field count_in (last hex_in)) (Object who) line.now) }
    ensures canonical { IfOk result (λ item. IfSome item IsCanonicalItem) }
{
    let (request, rest) = cut(line, b' ');
    let (version, bytes) = cut(rest, b' ');
    let Some(request) = read_number(COUNTS, request) else {
        return Ok(None);
    };
    let Some(version) = read_number(COUNTS, version) else {
        return Ok(None);
    };
    let Some(bytes) = read_hex(alloc, bytes)? else {
        return Ok(None);
    };
    Ok(Some(Item::Object {
        who,
        request: request as u32,
        version: version as u32,
        bytes,
    }))
}

fn read_none(who: Instance, line: &[u8]) -> Option<Item>
    requires named { IsNamed who }
    ensures item { result ≡ last count_in (NoObject who) line.now }
    ensures canonical { IfSome result IsCanonicalItem }
{
    let request = read_number(COUNTS, line)?;
    Some(Item::NoObject {
        who,
        request: request as u32,
    })
}
