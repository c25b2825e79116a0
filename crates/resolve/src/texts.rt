// The texts of nodes after STOP: where a node's text stands, in the pickle or in the decoded text; and the pass that decodes what
// cannot be read straight off the pickle.
ghost use Rattle.std.specs.Prelude.{◌≡◌, [], ◌+◌, ◌/◌, ◌≤◌, length};
ghost use Rattle.utf8.specs.Utf8.{repair};
ghost use Rattle.text.specs.Pieces.{bytes_of};
ghost use Rattle.text.specs.Text.{unescape_string, unescape_unicode};
ghost use Rattle.steps.specs.NodeWords.{within};
ghost use Rattle.resolve.specs.Shown.{lead_text, trail_text};
ghost use Rattle.resolve.specs.Readable.{TextReadable};
ghost use Rattle.resolve.specs.DecodedMeasure.{measure_of};
ghost use Rattle.resolve.specs.Spell.{PutsText, TextRoom, Spells, StandsDecoded, SpellsNode, Unspelled};
ghost use Rattle.resolve.specs.TextsDue.{text_kind, text_due_word, DecodableOne, DecodesOne, Decodable, Decodes};

use store::NodeId;

// The measure of a node whose text was decoded: this, its place, 2^17 times the length of what leads, 2^34 times that of what trails.
const DECODED: u64 = 0x4000_0000_0000_0000;

// How far the parts of such a measure go: a place or a length is below it.
const SPAN: u64 = 0x2_0000;

// Where the length of what trails stands: SPAN times SPAN.
const TRAIL_AT: u64 = 0x4_0000_0000;

// Bytes or a String, or the module of a Global or of an Object's class.
pub fn lead_part<'a>(
    node: NodeId,
    pickle: &'a [u8],
    decoded: &'a [u8],
    nodes: &[u64],
    measures: &[u64],
) -> &'a [u8]
    requires { TextReadable nodes.now measures.now node.0 }
    ensures { result.now ≡ lead_text pickle.now decoded.now nodes.now measures.now node.0 }
{
    let i = node.0;
    let measure = measures[i];
    if DECODED <= measure {
        return value::cut(decoded, measure % SPAN, measure / SPAN % SPAN);
    }
    let first = nodes[2 * i];
    match first % store::KIND_RADIX {
        value::KIND_GLOBAL => module_text(pickle, first),
        value::KIND_OBJECT => {
            let class = NodeId((first / store::CLASS) as usize);
            module_text(pickle, nodes[2 * class.0])
        }
        _ => raw_text(pickle, nodes[2 * i + 1]),
    }
}

// The name of a Global or of an Object's class.
pub fn trail_part<'a>(
    node: NodeId,
    pickle: &'a [u8],
    decoded: &'a [u8],
    nodes: &[u64],
    measures: &[u64],
) -> &'a [u8]
    requires { TextReadable nodes.now measures.now node.0 }
    ensures { result.now ≡ trail_text pickle.now decoded.now nodes.now measures.now node.0 }
{
    let i = node.0;
    let measure = measures[i];
    if DECODED <= measure {
        return value::cut(
            decoded,
            measure % SPAN + measure / SPAN % SPAN,
            measure / TRAIL_AT % SPAN,
        );
    }
    let first = nodes[2 * i];
    match first % store::KIND_RADIX {
        value::KIND_GLOBAL => raw_text(pickle, nodes[2 * i + 1]),
        value::KIND_OBJECT => {
            let class = NodeId((first / store::CLASS) as usize);
            raw_text(pickle, nodes[2 * class.0 + 1])
        }
        _ => &[],
    }
}

// ---- the pass

// A node's measure, and how much of the decoded text is used once its text is there.
#[derive(Drop)]
struct Spelling {
    measure: u64,
    used: usize,
}

// The measure of a text that was decoded.
fn decoded_measure(at: usize, lead: usize, trail: usize) -> u64
    requires { (at ≤ 65536) × (lead ≤ 65536) × (trail ≤ 65536) }
    ensures { result ≡ measure_of at lead trail }
{
    DECODED + at as u64 + SPAN * lead as u64 + TRAIL_AT * trail as u64
}

// The module of a Global with this first word, as it stands in the pickle.
pub fn module_text(pickle: &[u8], first: u64) -> &[u8]
    ensures { result.now ≡ within 24 (first / 16) pickle.now }
{
    let word = first / store::KIND_RADIX;
    value::cut(
        pickle,
        word % store::MODULE_LEN_AT,
        word / store::MODULE_LEN_AT,
    )
}

// The text of a node with this second word, as it stands in the pickle.
pub fn raw_text(pickle: &[u8], second: u64) -> &[u8]
    ensures { result.now ≡ within 32 second pickle.now }
{
    value::cut(pickle, second % store::HALF, second / store::HALF)
}

// A text, repaired, at `at` of the decoded text; its length.
fn put_repaired(bytes: &[u8], decoded: &mut [u8], at: usize) -> usize
    requires { at + length (repair bytes.now) ≤ length decoded.old }
    ensures { PutsText (repair bytes.now) decoded.old at decoded.new result }
{
    utf8::from_utf8_lossy(bytes, &mut decoded[at..])
}

// A line of STRING, unescaped. One that cannot be has no text.
fn put_string(line: &[u8], decoded: &mut [u8], at: usize) -> usize
    requires { at + length (bytes_of (unescape_string line.now)) ≤ length decoded.old }
    ensures { PutsText (bytes_of (unescape_string line.now)) decoded.old at decoded.new result }
{
    match text::string_len(line) {
        Ok(_) => text::unescape_string(line, &mut decoded[at..]),
        Err(_) => 0,
    }
}

// A line of UNICODE, decoded. One that cannot be has no text.
fn put_unicode(line: &[u8], decoded: &mut [u8], at: usize) -> usize
    requires { at + length (bytes_of (unescape_unicode line.now)) ≤ length decoded.old }
    ensures { PutsText (bytes_of (unescape_unicode line.now)) decoded.old at decoded.new result }
{
    match text::unicode_len(line) {
        Ok(_) => text::unescape_unicode(line, &mut decoded[at..]),
        Err(_) => 0,
    }
}

// A String: it stays in the pickle if it is well formed there.
fn spell_text(bytes: &[u8], measure: u64, decoded: &mut [u8], used: usize) -> Spelling
    requires { TextRoom (repair bytes.now) [] used decoded.old }
    ensures { Spells bytes.now [] (repair bytes.now) [] measure used decoded.old result
        decoded.new }
{
    if utf8::valid(bytes) {
        return Spelling { measure, used };
    }
    let n = put_repaired(bytes, decoded, used);
    Spelling {
        measure: decoded_measure(used, n, 0),
        used: used + n,
    }
}

// A module and a name: they stay in the pickle if both are well formed there.
fn spell_names(lead: &[u8], trail: &[u8], measure: u64, decoded: &mut [u8], used: usize) -> Spelling
    requires { TextRoom (repair lead.now) (repair trail.now) used decoded.old }
    ensures { Spells lead.now trail.now (repair lead.now) (repair trail.now) measure used
        decoded.old result decoded.new }
{
    if utf8::valid(lead) {
        if utf8::valid(trail) {
            return Spelling { measure, used };
        }
    }
    let m = put_repaired(lead, decoded, used);
    let n = put_repaired(trail, decoded, used + m);
    Spelling {
        measure: decoded_measure(used, m, n),
        used: used + m + n,
    }
}

// A line of STRING is always decoded, and so is one of UNICODE.
fn spell_string(line: &[u8], decoded: &mut [u8], used: usize) -> Spelling
    requires { TextRoom (bytes_of (unescape_string line.now)) [] used decoded.old }
    ensures { StandsDecoded (bytes_of (unescape_string line.now)) [] used decoded.old result decoded.new }
{
    let n = put_string(line, decoded, used);
    Spelling {
        measure: decoded_measure(used, n, 0),
        used: used + n,
    }
}

fn spell_unicode(line: &[u8], decoded: &mut [u8], used: usize) -> Spelling
    requires { TextRoom (bytes_of (unescape_unicode line.now)) [] used decoded.old }
    ensures { StandsDecoded (bytes_of (unescape_unicode line.now)) [] used decoded.old result decoded.new }
{
    let n = put_unicode(line, decoded, used);
    Spelling {
        measure: decoded_measure(used, n, 0),
        used: used + n,
    }
}

// The text of a node that has one, behind those that are decoded already unless it can be read straight off the pickle.
fn spell_node(
    node: NodeId,
    measure: u64,
    pickle: &[u8],
    nodes: &[u64],
    decoded: &mut [u8],
    used: usize,
) -> Spelling
    requires { Unspelled pickle.now nodes.now node.0 used decoded.old }
    ensures { SpellsNode pickle.now nodes.now node.0 measure used decoded.old result
        decoded.new }
{
    let i = node.0;
    let first = nodes[2 * i];
    let second = nodes[2 * i + 1];
    let kind = first % store::KIND_RADIX;
    if kind == value::KIND_STRING {
        return spell_text(raw_text(pickle, second), measure, decoded, used);
    }
    if kind == value::KIND_GLOBAL {
        return spell_names(
            module_text(pickle, first),
            raw_text(pickle, second),
            measure,
            decoded,
            used,
        );
    }
    if kind == value::KIND_OBJECT {
        let class = NodeId((first / store::CLASS) as usize);
        return spell_names(
            module_text(pickle, nodes[2 * class.0]),
            raw_text(pickle, nodes[2 * class.0 + 1]),
            measure,
            decoded,
            used,
        );
    }
    if kind == store::KIND_ESCAPED {
        return spell_string(raw_text(pickle, second), decoded, used);
    }
    if kind == store::KIND_UNICODE {
        return spell_unicode(raw_text(pickle, second), decoded, used);
    }
    Spelling { measure, used }
}

// Whether nodes of a kind have text.
#[tactic(auto, unfolding(crate::specs::TextsDue::text_kind))]
fn kind_has_text(kind: u64) -> bool
    ensures { result ≡ text_kind kind }
{
    matches!(
        kind,
        value::KIND_BYTES..=value::KIND_STRING | value::KIND_GLOBAL..=store::KIND_UNICODE
    )
}

// Whether a node's text is wanted: the walk reached it, as its measure says.
fn text_is_due(first: u64, measure: u64) -> bool
    ensures { result ≡ text_due_word first measure }
{
    let kind = first % store::KIND_RADIX;
    if measure < store::DEPTHS {
        return false;
    }
    if kind == value::KIND_OBJECT {
        return measure < store::MEASURED;
    }
    if store::AHEAD <= measure {
        return false;
    }
    kind_has_text(kind)
}

// One node; how much of the decoded text is used then.
fn decode_one(
    node: NodeId,
    nodes: &[u64],
    pickle: &[u8],
    decoded: &mut [u8],
    measures: &mut [u64],
    used: usize,
) -> usize
    requires { DecodableOne pickle.now nodes.now node.0 decoded.old measures.old used }
    ensures { DecodesOne pickle.now nodes.now node.0 decoded.old measures.old used
        decoded.new measures.new result }
{
    let i = node.0;
    let measure = measures[i];
    if text_is_due(nodes[2 * i], measure) {
        let spelling = spell_node(node, measure, pickle, nodes, decoded, used);
        measures[i] = spelling.measure;
        return spelling.used;
    }
    used
}

// The texts of all nodes that the walk reached; how much of the decoded text they use.
pub fn decode_all(
    nodes: &[u64],
    count: usize,
    pickle: &[u8],
    decoded: &mut [u8],
    measures: &mut [u64],
) -> usize
    requires { Decodable pickle.now nodes.now count decoded.old measures.old }
    ensures { Decodes pickle.now nodes.now decoded.old measures.old count
        decoded.new measures.new result }
{
    let mut used = 0;
    for i in 0..count {
        used = decode_one(NodeId(i), nodes, pickle, decoded, measures, used);
    }
    used
}
