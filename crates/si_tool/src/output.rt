//! What a command puts on `out`.

ghost use Rattle.std.specs.Prelude.{◌≡◌, ℕ, ◌≤◌, List, IfOk, IfErr, OnErr, Ok, ◌<◌, length, true};
ghost use Rattle.si_words.specs.Loops.Reads.{words_now};
ghost use Rattle.si_refusals.specs.Ending.{MayStop, MayStopLoading, ending_of};
ghost use Rattle.si_refusals.specs.Refusal.{Output};
ghost use Rattle.si_commands.specs.Command.{digits, form_of, format_of, is_suggested, most_files};
ghost use Rattle.si_commands.specs.Command.{number_of};
ghost use Rattle.si_commands.specs.Form.{Fit};
ghost use Rattle.si_handshakes.specs.Handshakes.{max_handshakes};
ghost use Rattle.si_words.specs.Names.{stands_in};
ghost use Rattle.si_tool.specs.Loads as stage;
ghost use Rattle.si_tool.specs.Loads.{CountsStay, IsUnread, LoadsFirst, loads};
ghost use Rattle.si_tool.specs.Meaning as meanings;
ghost use Rattle.si_tool.specs.Meaning.{ComesTo, MayStopCommand, complements_of, mapped_by};
ghost use Rattle.si_tool.specs.Meaning.{meaning, resolved_by};
ghost use Rattle.si_commands.specs.Loops.Reads.{request_of, texts_now};
ghost use Rattle.si_commands.specs.declared.task.Task.TheVariants.{ResettableStructure};

use si_base::limits::MAX_TEXT;
use si_base::text::Text;
use si_by_hand::by_hand::insert_by_hand;
use si_cell::pins::Pins;
use si_certify::certify::certify_texts;
use si_certify_equations::certify::certify_equations;
use si_certify_equations::form::Form;
use si_commands::about::about;
use si_commands::command::Command;
use si_commands::form::is_listed;
use si_commands::task::{LibraryKind, Task, Together};
use si_exercise::exercise::exercise;
use si_exports::equations::equations;
use si_exports::resettable::resettable;
use si_exports::structure::{resettable_structure, structure};
use si_exports::timing::timing;
use si_io::shelf::{LoadFault, Shelf};
use si_joins::join::join_texts;
use si_likeness::same::same;
use si_readings::library_format::LibraryFormat;
use si_refusals::refusals::Refusal;
use si_reports::netlist_report::netlist_report;
use si_reports::replayed::replay_texts;
use si_reports::report::report;
use si_reports::verilog::verilog;
use si_stages::audited::audit_texts;
use si_stages::genlib::genlib;
use si_stages::inserted::{insert, resolve};
use si_stages::mapping::map_texts;
use si_stages::synth::synth;
use si_structure::complements::Complements;
use si_suggestion::mapped::map_suggested;
use si_suggestion::resolved::resolve_suggested;
use si_suggestion::suggested::suggest_text;
use si_systems::compose::compose_texts;
use si_systems::product::product_texts;
use si_works::works::works_texts;
use std::alloc::Global;

/// The output of a command over the files of the shelf, or the refusal that is due.
pub fn output<'w, H: Shelf>(
    alloc: Global,
    command: &Command<'w>,
    shelf: &mut H,
) -> Result<Text, Refusal<'w>>
    requires { Fit (form_of command.now.task) (words_now command.now.given.files.items)
        (words_now command.now.given.choices.items) }
    ensures ok { IfOk result (λ text. ComesTo
        (loads (H.content shelf.old) (H.faults shelf.old) (H.faults shelf.new))
        (request_of command.now) (Output text)) }
    ensures err { IfErr result (λ r. MayStopCommand
        (loads (H.content shelf.old) (H.faults shelf.old) (H.faults shelf.new))
        (request_of command.now) (ending_of r)) }
    ensures loaded { LoadsFirst H.loads (words_now command.now.given.files.items)
        shelf.old shelf.new }
    ensures later { (n : List ℕ) → H.faults shelf.old n ≤ H.faults shelf.new n }
    ensures same { (n : List ℕ) → H.content shelf.new n ≡ H.content shelf.old n }
{
    let texts = load_all(alloc, &command.given.files, shelf)?;
    output_of_texts(
        alloc,
        command.task,
        &command.given.files,
        &command.given.choices,
        &texts,
    )
}

/// The output of a task over its files, each with its text, and the words that are chosen.
fn output_of_texts<'w>(
    alloc: Global,
    task: Task,
    files: &[&'w str],
    choices: &[&str],
    texts: &[Vec<u8>],
) -> Result<Text, Refusal<'w>>
    requires given { Fit (form_of task) (words_now files.now) (words_now choices.now) }
    requires texts { length texts.now ≡ length files.now }
    ensures ok { IfOk result (λ text. meaning task (words_now files.now) (words_now choices.now)
        (texts_now texts.now) (Ok text)) }
    ensures err { IfErr result (λ r. MayStop
        (meaning task (words_now files.now) (words_now choices.now) (texts_now texts.now))
        (ending_of r)) }
{
    match task {
        Task::About(topic) => Ok(about(alloc, topic, choices)?),
        Task::Tell(what) => report(alloc, what, files[0], &texts[0]),
        Task::Synth(style) => synth(alloc, style, files[0], &texts[0]),
        Task::Suggest(style) => suggest_text(alloc, style, files[0], &texts[0]),
        Task::Verilog => verilog(alloc, files[0], &texts[0]),
        Task::Equations => equations(alloc, files[0], &texts[0]),
        Task::TellNetlist(what) => netlist_report(alloc, what, files[0], &texts[0]),
        Task::FromGenlib => genlib(alloc, files[0], &texts[0]),
        Task::Map(kind) => {
            let format = library_format(kind, choices);
            mapped(
                alloc, choices, format, files[0], &texts[0], files[1], &texts[1],
            )
        }
        Task::Structure(kind) => {
            let format = library_format(kind, choices);
            structure(
                alloc,
                format,
                complements(choices),
                files[0],
                &texts[0],
                files[1],
                &texts[1],
            )
        }
        Task::Replay(what) => {
            let (graph, netlist, schedule) = (files[0], files[1], files[2]);
            replay_texts(
                alloc, what, graph, &texts[0], netlist, &texts[1], schedule, &texts[2],
            )
        }
        Task::Audit => audit_texts(alloc, files[0], &texts[0], files[1], &texts[1]),
        Task::Resolve => resolved(alloc, choices, files[0], &texts[0]),
        Task::Insert => insert(alloc, files[0], &texts[0], files[1], &texts[1]),
        Task::Same => same(alloc, files[0], &texts[0], files[1], &texts[1]),
        Task::Together(what) => together(alloc, what, files, texts),
        Task::Exercise => Ok(exercise(alloc, number(choices[0]))?),
        Task::Resettable => resettable(alloc, files[0], &texts[0], choices[0]),
        Task::Timing(kind) => {
            let format = library_format(kind, choices);
            timing(alloc, format, files[0], &texts[0], files[1], &texts[1])
        }
        Task::ResettableStructure(kind) => with_reset(alloc, kind, files, choices, texts),
        Task::Certify => certify_texts(alloc, files[0], &texts[0], files[1], &texts[1]),
        Task::CertifyEquations => {
            certify_equations(
                alloc,
                Form::Equations,
                files[0],
                &texts[0],
                files[1],
                &texts[1],
            )
        }
        Task::CertifyModules => {
            certify_equations(
                alloc,
                Form::Modules,
                files[0],
                &texts[0],
                files[1],
                &texts[1],
            )
        }
        Task::InsertGate => insert_by_hand(alloc, files[0], &texts[0], files[1], &texts[1]),
    }
}

/// A netlist of cells with a reset input, by its name and the options, which are chosen behind it.
fn with_reset<'w>(
    alloc: Global,
    kind: LibraryKind,
    files: &[&'w str],
    choices: &[&str],
    texts: &[Vec<u8>],
) -> Result<Text, Refusal<'w>>
    requires given { Fit (form_of (ResettableStructure kind)) (words_now files.now)
        (words_now choices.now) }
    requires texts { length texts.now ≡ length files.now }
    ensures ok { IfOk result (λ text. meaning (ResettableStructure kind) (words_now files.now)
        (words_now choices.now) (texts_now texts.now) (Ok text)) }
    ensures err { IfErr result (λ r. MayStop (meaning (ResettableStructure kind)
        (words_now files.now) (words_now choices.now) (texts_now texts.now)) (ending_of r)) }
{
    let (name, options) = (choices[0], &choices[1..]);
    let format = library_format(kind, options);
    resettable_structure(
        alloc,
        format,
        complements(options),
        name,
        files[0],
        &texts[0],
        files[1],
        &texts[1],
    )
}

/// What is made of the controllers of the files together.
fn together<'w>(
    alloc: Global,
    what: Together,
    files: &[&'w str],
    texts: &[Vec<u8>],
) -> Result<Text, Refusal<'w>>
    requires few { length files.now ≤ most_files what }
    requires texts { length texts.now ≡ length files.now }
    ensures ok { IfOk result (λ output.
        meanings.together what (words_now files.now) (texts_now texts.now) (Ok output)) }
    ensures err { IfErr result (λ r. MayStop
        (meanings.together what (words_now files.now) (texts_now texts.now)) (ending_of r)) }
{
    match what {
        Together::Product => product_texts(alloc, files, texts),
        Together::Compose => compose_texts(alloc, files, texts),
        Together::Join => join_texts(alloc, files, texts),
        Together::Works => works_texts(alloc, files, texts),
    }
}

/// The graph after the insertions that the options ask for.
fn resolved<'w>(
    alloc: Global,
    options: &[&str],
    file: &'w str,
    text: &[u8],
) -> Result<Text, Refusal<'w>>
    ensures ok { IfOk result (λ output.
        resolved_by (is_suggested (words_now options.now)) file.now text.now (Ok output)) }
    ensures err { IfErr result (λ r. MayStop
        (resolved_by (is_suggested (words_now options.now)) file.now text.now) (ending_of r)) }
{
    if is_listed(options, "suggest") {
        resolve_suggested(alloc, file, text)
    } else {
        resolve(alloc, file, text)
    }
}

/// The netlist of cells over them.
fn mapped<'w, 't>(
    alloc: Global,
    options: &[&str],
    format: LibraryFormat,
    graph_file: &'w str,
    graph: &'t [u8],
    library_file: &'w str,
    library: &'t [u8],
) -> Result<Text, Refusal<'w>>
    ensures ok { IfOk result (λ output. mapped_by (is_suggested (words_now options.now)) format
        graph_file.now graph.now library_file.now library.now (Ok output)) }
    ensures err { IfErr result (λ r. MayStop
        (mapped_by (is_suggested (words_now options.now)) format
        graph_file.now graph.now library_file.now library.now) (ending_of r)) }
{
    if is_listed(options, "suggest") {
        map_suggested(alloc, format, graph_file, graph, library_file, library)
    } else {
        map_texts(alloc, format, graph_file, graph, library_file, library)
    }
}

/// The format of a library that is read so, with pins as the options ask for.
fn library_format(kind: LibraryKind, options: &[&str]) -> LibraryFormat
    ensures { result ≡ format_of kind (words_now options.now) }
{
    let pins = if is_listed(options, "plain") {
        Pins::Plain
    } else {
        Pins::Any
    };
    match kind {
        LibraryKind::Cells => LibraryFormat::Own(pins),
        LibraryKind::Gates => LibraryFormat::Genlib(pins),
    }
}

/// What becomes of complemented pins, as the options ask for.
fn complements(options: &[&str]) -> Complements
    ensures { result ≡ complements_of (words_now options.now) }
{
    if is_listed(options, "inverters") {
        Complements::Inverted
    } else {
        Complements::Refused
    }
}

/// The number that a digit from 1 to 8 spells.
fn number(digit: &str) -> u32
    requires { stands_in digits digit.now ≡ true }
    ensures number { result ≡ number_of digit.now }
    ensures some { 0 < result }
    ensures few { result ≤ max_handshakes }
{
    u32::from(digit.as_bytes()[0] - b'0')
}

/// The texts of the files, loaded one after another.
fn load_all<'w, H: Shelf>(
    alloc: Global,
    files: &[&'w str],
    shelf: &mut H,
) -> Result<Vec<Vec<u8>>, Refusal<'w>>
    ensures ok { IfOk result (λ v.
        loads (H.content shelf.old) (H.faults shelf.old) (H.faults shelf.new)
        (words_now files.now) (Ok (texts_now v.items))) }
    ensures err { IfErr result (λ r. MayStopLoading
        (loads (H.content shelf.old) (H.faults shelf.old) (H.faults shelf.new)
        (words_now files.now)) (ending_of r)) }
    ensures loaded { LoadsFirst H.loads (words_now files.now) shelf.old shelf.new }
    ensures later { (n : List ℕ) → H.faults shelf.old n ≤ H.faults shelf.new n }
    ensures same { (n : List ℕ) → H.content shelf.new n ≡ H.content shelf.old n }
{
    let mut texts = Vec::new(alloc);
    for file in files {
        let text = load(alloc, file, shelf)?;
        let Ok(()) = texts.push(text) else {
            return Err(Refusal::NoMemory);
        };
    }
    Ok(texts)
}

/// The text of a file.
fn load<'w, H: Shelf>(alloc: Global, file: &'w str, shelf: &mut H) -> Result<Vec<u8>, Refusal<'w>>
    ensures ok { IfOk result (λ v.
        stage.load_well (H.content shelf.old) file.now (Ok v.items)) }
    ensures err { IfErr result (λ r. MayStopLoading
        (stage.load (H.content shelf.old) (H.faults shelf.old) (H.faults shelf.new) file.now)
        (ending_of r)) }
    ensures stay { IfOk result (λ _. CountsStay (H.faults shelf.old) (H.faults shelf.new)) }
    ensures loaded { IfOk result (λ v. H.loads shelf.old file.now (Ok v.items) shelf.new) }
    ensures unread { OnErr result (IsUnread H.loads file.now shelf.old shelf.new) }
    ensures later { (n : List ℕ) → H.faults shelf.old n ≤ H.faults shelf.new n }
    ensures same { (n : List ℕ) → H.content shelf.new n ≡ H.content shelf.old n }
{
    match shelf.load(alloc, file, MAX_TEXT) {
        Ok(text) => Ok(text),
        Err(LoadFault::NoMemory) => Err(Refusal::NoMemory),
        Err(LoadFault::Failed) => Err(Refusal::ReadFault { file }),
        Err(LoadFault::TooLong { .. }) => Err(Refusal::TooLong { file }),
    }
}
