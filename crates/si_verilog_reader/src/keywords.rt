//! The words that Verilog keeps for itself.

ghost use Rattle.std.specs.Prelude.{◌≡◌, bytes_eq};
ghost use Rattle.std.specs.List.{list_any};
ghost use Rattle.si_words.specs.Loops.Reads.{words_now};
ghost use Rattle.si_verilog.specs.Keywords as spec;
ghost use Rattle.si_verilog_reader.specs.Loops.ByLength.{of_lengths, words_in};
ghost use Rattle.si_verilog_reader.specs.Loops.ByLength.{keywords_from, lengths, shortest};

/// How many bytes the shortest keywords have.
const SHORTEST: usize = 2;

/// All keywords: those of each length, from that of the shortest on. The text is empty where no
/// keyword has the length.
const BY_LENGTH: &[&[u8]] = &[
    b"do if or",
    b"and bit buf end for iff int let new nor not ref reg tri use var wor xor",
    b"bind bins byte case cell cmos dist edge else enum fork join nand nmos null pmos pure rand
real soft task this time tran tri0 tri1 type void wait wand weak wire with xnor",
    b"alias begin break casex casez class const cover cross event final force inout input large
local logic pull0 pull1 randc rcmos rnmos rpmos rtran small solve super table trior union
until uwire weak0 weak1 while",
    b"always assert assign assume before binsof bufif0 bufif1 config design expect export extern
genvar global highz0 highz1 ifnone import incdir inside medium module notif0 notif1 output
packed pullup repeat return signed static string strong struct tagged triand trireg unique
within",
    b"chandle checker context default disable endcase endtask extends foreach forever implies
include initial integer liblist library longint matches modport negedge nettype package
posedge program release s_until specify strong0 strong1 supply0 supply1 tranif0 tranif1
typedef unique0 untyped virtual",
    b"clocking continue deassign defparam endclass endgroup endtable forkjoin function generate
instance join_any nexttime priority property pulldown randcase realtime restrict rtranif0
rtranif1 s_always scalared sequence shortint timeunit unsigned vectored wildcard",
    b"accept_on always_ff automatic endconfig endmodule interface intersect join_none parameter
primitive protected reject_on shortreal specparam",
    b"constraint covergroup coverpoint endchecker endpackage endprogram endspecify eventually
implements localparam s_nexttime throughout until_with wait_order",
    b"always_comb endclocking endfunction endgenerate endproperty endsequence first_match
ignore_bins macromodule",
    b"always_latch endinterface endprimitive illegal_bins interconnect randsequence s_eventually
s_until_with",
    b"showcancelled timeprecision",
    b"sync_accept_on sync_reject_on",
    b"noshowcancelled",
    b"",
    b"",
    b"pulsestyle_onevent",
    b"pulsestyle_ondetect",
];

/// Whether the word is one of those of a text, which stand between blanks and on lines.
fn has_word(text: &[u8], word: &[u8]) -> bool
    ensures { result ≡ list_any (bytes_eq word.now) (words_in text.now) }
{
    text.split(|b| *b == b' ' || *b == b'\n')
        .any(|other| word == other)
}

/// Whether the word is a keyword, given those of each length from that of the shortest on. So it is
/// compared with few, and a word of a single byte with none.
fn is_among(by_length: &[&[u8]], word: &[u8]) -> bool
    requires { of_lengths shortest (words_now by_length.now) ≡ keywords_from shortest lengths }
    ensures { result ≡ spec.is_keyword word.now }
{
    let len = word.len();
    if len < SHORTEST {
        return false;
    }
    match by_length.get(len - SHORTEST) {
        None => false,
        Some(words) => has_word(words, word),
    }
}

/// Whether the word is a keyword of SystemVerilog (IEEE 1800-2017, Annex B); those of Verilog are
/// among them.
pub(crate) fn is_keyword(word: &[u8]) -> bool
    ensures { result ≡ spec.is_keyword word.now }
{
    is_among(BY_LENGTH, word)
}
