//! Heads of modules: `module NAME(PORTS);`.

ghost use Rattle.std.specs.Prelude.{◌≡◌, ◌++◌, ◌<◌, ◌∷◌, [], false, length, IfOk, OnOk};
ghost use Rattle.si_base.specs.Limits.{max_signals};
ghost use Rattle.si_tokens.specs.Loops.Parts.{Reads};
ghost use Rattle.si_words.specs.Names.{stands_in};
ghost use Rattle.si_verilog_reader.specs.Loops.Held.{named_now, ports_now, placed_now};
ghost use Rattle.si_verilog_reader.specs.Loops.Names.{AreGood, fault_by};
ghost use Rattle.si_verilog_reader.specs.Modules as spec;
ghost use Rattle.si_verilog_reader.specs.Parts.{list_at, part_of_list};

use crate::parts::{Named, fault_at, goes_on, if_good, next, read_mark, read_name, read_word};
use crate::source::{Placed, Source, Symbol};
use si_base::fault::TextKind;
use si_base::ids::NoMemory;
use si_base::limits::MAX_SIGNALS;
use si_base::names::Names;
use si_tokens::fault::ReadFault;
use si_words::lists::has;
use si_words::words::is_signal_name;
use std::alloc::Global;

/// The names of a module's ports.
#[derive(Drop)]
pub(crate) struct Ports {
    pub(crate) inputs: Names,
    pub(crate) outputs: Names,
}

/// What the names of ports have to be.
#[derive(Clone, Copy, PartialEq, Eq)]
pub(crate) enum Rule {
    /// Names of signals.
    OfCircuit,
    /// Names.
    OfCell,
}

/// Whether `input` stands there, or `output`.
fn direction(placed: Placed<'_>) -> Result<bool, ReadFault>
    ensures { Reads (λ is_input. is_input) result
        (spec.direction placed.entry.line (placed_now placed.entry).symbol) }
{
    match placed.symbol {
        Symbol::Word(word) => {
            if b"input".as_slice() == word {
                Ok(true)
            } else if b"output".as_slice() == word {
                Ok(false)
            } else {
                Err(fault_at(placed.line, TextKind::BadWord))
            }
        }
        Symbol::Name(_) => Err(fault_at(placed.line, TextKind::BadWord)),
        Symbol::Mark(_) => Err(fault_at(placed.line, TextKind::BadWord)),
    }
}

/// Puts a new name last.
fn push(names: &mut Names, name: &[u8]) -> Result<(), NoMemory>
    requires new { stands_in names.old name.now ≡ false }
    requires room { length names.old < max_signals }
    ensures { OnOk result (names.new ≡ names.old ++ name.now ∷ []) }
{
    match names.add(name, MAX_SIGNALS as u32) {
        Ok(_) => Ok(()),
        Err(_) => Err(NoMemory),
    }
}

impl Ports {
    /// The number of ports.
    pub(crate) fn count(&self) -> usize
        ensures { result ≡ length (spec.all_ports (ports_now self.now)) }
    {
        self.inputs.len() as usize + self.outputs.len() as usize
    }

    /// Whether there is a port of the name.
    pub(crate) fn has(&self, name: &[u8]) -> bool
        ensures { result ≡ stands_in (spec.all_ports (ports_now self.now)) name.now }
    {
        has(&self.inputs, name) || has(&self.outputs, name)
    }

    /// The fault of the name of the next port.
    fn kind(&self, rule: Rule, name: &[u8]) -> Option<TextKind>
        ensures { result ≡ fault_by rule (spec.all_ports (ports_now self.now)) name.now }
    {
        if rule == Rule::OfCircuit && !is_signal_name(name) {
            Some(TextKind::BadName)
        } else if self.has(name) {
            Some(TextKind::Repeated)
        } else if self.count() >= MAX_SIGNALS {
            Some(TextKind::TooManySignals)
        } else {
            None
        }
    }

    /// Puts a new port last.
    fn add(&mut self, is_input: bool, name: &[u8]) -> Result<(), NoMemory>
        requires new { stands_in (spec.all_ports (ports_now self.old)) name.now ≡ false }
        requires room { length (spec.all_ports (ports_now self.old)) < max_signals }
        ensures { OnOk result
            (ports_now self.new ≡ spec.with_port is_input name.now (ports_now self.old)) }
    {
        if is_input {
            push(&mut self.inputs, name)?;
        } else {
            push(&mut self.outputs, name)?;
        }
        Ok(())
    }
}

/// One more port.
#[tactic(auto, unfolding(crate::specs::Modules::port_at))]
fn read_port(source: &mut Source<'_>, rule: Rule, ports: &mut Ports) -> Result<(), ReadFault>
    requires { AreGood rule (ports_now ports.old) }
    ensures port { Reads (λ done. (ports_now ports.new, source.new)) result
        (spec.port_at (fault_by rule) (ports_now ports.old) source.old) }
    ensures good { OnOk result (AreGood rule (ports_now ports.new)) }
{
    let is_input = direction(next(source)?)?;
    let name = read_name(source)?;
    if_good(name.line, ports.kind(rule, name.name))?;
    ports.add(is_input, name.name)?;
    Ok(())
}

/// One more port. Answers whether another one follows.
#[tactic(auto, unfolding(crate::specs::Parts::part_of_list))]
fn read_next(source: &mut Source<'_>, rule: Rule, ports: &mut Ports) -> Result<bool, ReadFault>
    requires { AreGood rule (ports_now ports.old) }
    ensures next { Reads (λ more. ((more, ports_now ports.new), source.new)) result
        (part_of_list (spec.port_at (fault_by rule)) (ports_now ports.old) source.old) }
    ensures good { OnOk result (AreGood rule (ports_now ports.new)) }
{
    read_port(source, rule, ports)?;
    let more = goes_on(source)?;
    Ok(more)
}

/// `PORTS)`, behind the parenthesis.
fn read_list(alloc: Global, source: &mut Source<'_>, rule: Rule) -> Result<Ports, ReadFault>
    ensures ports { Reads (λ p. (ports_now p, source.new)) result
        (list_at (spec.port_at (fault_by rule)) spec.no_ports source.old) }
    ensures good { IfOk result (λ p. AreGood rule (ports_now p)) }
{
    let mut ports = Ports {
        inputs: Names::new(alloc)?,
        outputs: Names::new(alloc)?,
    };
    if source.take_closing() {
        return Ok(ports);
    }
    while read_next(source, rule, &mut ports)? {}
    Ok(ports)
}

/// `PORTS);`, behind the parenthesis.
#[tactic(auto, unfolding(crate::specs::Modules::ports_at))]
pub(crate) fn read_ports(
    alloc: Global,
    source: &mut Source<'_>,
    rule: Rule,
) -> Result<Ports, ReadFault>
    ensures ports { Reads (λ p. (ports_now p, source.new)) result
        (spec.ports_at (fault_by rule) source.old) }
    ensures good { IfOk result (λ p. AreGood rule (ports_now p)) }
{
    let ports = read_list(alloc, source, rule)?;
    read_mark(source, b';')?;
    Ok(ports)
}

/// `module NAME(`.
#[tactic(auto, unfolding(crate::specs::Modules::head_at))]
pub(crate) fn read_head<'a>(source: &mut Source<'a>) -> Result<Named<'a>, ReadFault>
    ensures { Reads (λ n. (named_now n, source.new)) result (spec.head_at source.old) }
{
    read_word(source, b"module")?;
    let name = read_name(source)?;
    read_mark(source, b'(')?;
    Ok(name)
}
