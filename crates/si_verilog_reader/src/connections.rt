//! Connections of the ports of an instance.

ghost use Rattle.std.specs.Prelude.{◌≡◌, [], map};
ghost use Rattle.si_tokens.specs.Loops.Parts.{Reads};
ghost use Rattle.si_words.specs.Names.{stands_in};
ghost use Rattle.si_verilog_reader.specs.Loops.Held.{connection_now, ports_now};
ghost use Rattle.si_verilog_reader.specs.Modules as spec;
ghost use Rattle.si_verilog_reader.specs.Parts.{list_at, part_of_list};

use crate::expression::signal_kind;
use crate::heads::Ports;
use crate::parts::{fault_at, goes_on, if_good, read_mark, read_name};
use crate::source::Source;
use si_base::fault::TextKind;
use si_tokens::fault::ReadFault;
use std::alloc::Global;

/// A port, and the net to which it is connected.
#[derive(Clone, Copy)]
pub(crate) struct Connection<'a> {
    pub(crate) port: &'a [u8],
    pub(crate) net: &'a [u8],
}

/// Whether the port is connected.
fn is_connected(connections: &[Connection<'_>], port: &[u8]) -> bool
    ensures { result
        ≡ stands_in (map (λ c. c.port) (map connection_now connections.now)) port.now }
{
    connections.iter().any(|c| port == c.port)
}

/// The fault of the next port that is connected.
fn connection_kind(ports: &Ports, connections: &[Connection<'_>], port: &[u8]) -> Option<TextKind>
    ensures { result ≡ spec.connection_fault (spec.all_ports (ports_now ports.now))
        (map connection_now connections.now) port.now }
{
    if !ports.has(port) {
        Some(TextKind::Undeclared)
    } else if is_connected(connections, port) {
        Some(TextKind::Repeated)
    } else {
        None
    }
}

/// One more connection.
#[tactic(auto, unfolding(crate::specs::Modules::connection_at))]
fn read_connection<'a>(
    source: &mut Source<'a>,
    ports: &Ports,
    connections: &mut Vec<Connection<'a>>,
) -> Result<(), ReadFault>
    ensures { Reads (λ done. (map connection_now connections.new.items, source.new)) result
        (spec.connection_at (spec.all_ports (ports_now ports.now))
        (map connection_now connections.old.items) source.old) }
{
    read_mark(source, b'.')?;
    let port = read_name(source)?;
    if_good(
        port.line,
        connection_kind(ports, connections.as_slice(), port.name),
    )?;
    read_mark(source, b'(')?;
    let net = read_name(source)?;
    if_good(net.line, signal_kind(net.name))?;
    read_mark(source, b')')?;
    connections.push(Connection {
        port: port.name,
        net: net.name,
    })?;
    Ok(())
}

/// One more connection. Answers whether another one follows.
#[tactic(auto, unfolding(crate::specs::Parts::part_of_list))]
fn read_next<'a>(
    source: &mut Source<'a>,
    ports: &Ports,
    connections: &mut Vec<Connection<'a>>,
) -> Result<bool, ReadFault>
    ensures { Reads (λ more. ((more, map connection_now connections.new.items), source.new)) result
        (part_of_list (spec.connection_at (spec.all_ports (ports_now ports.now)))
        (map connection_now connections.old.items) source.old) }
{
    read_connection(source, ports, connections)?;
    let more = goes_on(source)?;
    Ok(more)
}

/// `CONNECTIONS)`, behind the parenthesis.
fn read_list<'a>(
    alloc: Global,
    source: &mut Source<'a>,
    ports: &Ports,
) -> Result<Vec<Connection<'a>>, ReadFault>
    ensures { Reads (λ v. (map connection_now v.items, source.new)) result
        (list_at (spec.connection_at (spec.all_ports (ports_now ports.now))) [] source.old) }
{
    let mut connections = Vec::new(alloc);
    if source.take_closing() {
        return Ok(connections);
    }
    while read_next(source, ports, &mut connections)? {}
    Ok(connections)
}

/// `NAME(CONNECTIONS);`, behind a cell's name on that line. Each of the ports is connected.
#[tactic(auto, unfolding(crate::specs::Modules::connections_at))]
pub(crate) fn read_connections<'a>(
    alloc: Global,
    source: &mut Source<'a>,
    line: u64,
    ports: &Ports,
) -> Result<Vec<Connection<'a>>, ReadFault>
    ensures { Reads (λ v. (map connection_now v.items, source.new)) result
        (spec.connections_at line (spec.all_ports (ports_now ports.now)) source.old) }
{
    let _name = read_name(source)?;
    read_mark(source, b'(')?;
    let connections = read_list(alloc, source, ports)?;
    read_mark(source, b';')?;
    if connections.len() != ports.count() {
        return Err(fault_at(line, TextKind::Undeclared));
    }
    Ok(connections)
}
