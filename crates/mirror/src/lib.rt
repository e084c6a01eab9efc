// A table of whole numbers formed of its non-negative half: every digit, and every leaf with its word, is written twice, as it is stored and
// as its mirror image. A store past the buffer's end is left out, so that no half asks for more than small numbers.
#![tactic(auto)]

ghost use Rattle.std.specs.Prelude.{◌≡◌, true, false, cond, ◌+◌, ◌*◌, ◌≤◌, ◌<◌, ltb, length, set};
ghost use Rattle.mirror_rules.specs.Half.{mirror_index, stored_number, image_number, bits_of, put_number, put_digit, put_digits, mirrored_file};
ghost use Rattle.mirror_rules.specs.Half.{word_digit, word_number, images_below, leaf_place, word_place, put_word, put_leaf, put_leaves};

// How many input digits are positive, and how many digits of `words` each leaf has: its own and zeros behind them.
#[derive(Clone, Copy)]
struct Shape {
    positive: usize,
    width: usize,
}

// Where the leaves' records and their words start in the file.
#[derive(Clone, Copy)]
struct Sections {
    leaves: usize,
    words: usize,
}

// A leaf's number in the whole table, and where its word starts.
#[derive(Clone, Copy)]
struct Place {
    leaf: usize,
    word: usize,
}

// The index of a digit's mirror image.
fn mirror(positive: usize, index: usize) -> usize
    requires { (positive < 128) × (index < 256) }
    ensures index { result ≡ mirror_index positive index }
    ensures within { result < 256 }
{
    if index == 0 {
        0
    } else if index <= positive {
        index + positive
    } else {
        index - positive
    }
}

// The 16 bits of a stored number.
fn stored_bits(byte: u8) -> usize
    ensures bits { result ≡ bits_of (stored_number byte) }
    ensures within { (result < 65536) × (byte < 256) }
{
    let low = usize::from(byte);
    if low < 128 { low } else { low + 65280 }
}

// Those of the number, or of minus the number for a mirror image.
fn bits(byte: u8, mirrored: bool) -> usize
    ensures { result ≡ bits_of (image_number mirrored byte) }
{
    let stored = stored_bits(byte);
    if mirrored {
        (65536 - stored) % 65536
    } else {
        stored
    }
}

fn store(out: &mut [u8], at: usize, byte: u8)
    ensures { out.new ≡ set out.old at byte }
{
    if at < out.len() {
        out[at] = byte;
    }
}

fn put_number(out: &mut [u8], at: usize, number: usize)
    requires { at < 1048576 }
    ensures { out.new ≡ put_number out.old at number }
{
    store(out, at, (number % 256) as u8);
    store(out, at + 1, (number / 256 % 256) as u8);
}

// A digit and its mirror image.
fn put_digit(out: &mut [u8], at: usize, half: &[u8], k: usize)
    requires { (at < 65536) × (length half.now ≤ 128) × (k < length half.now) }
    ensures { out.new ≡ put_digit half.now at out.old k }
{
    let byte = octets::byte_at(half, k);
    put_number(out, at + 4 * k, bits(byte, false));
    put_number(out, at + 4 * mirror(half.len() - 1, k), bits(byte, true));
}

fn put_digits(out: &mut [u8], at: usize, half: &[u8])
    requires { (at < 65536) × (length half.now ≤ 128) }
    ensures { out.new ≡ put_digits half.now at out.old (length half.now) }
{
    for k in 0..half.len() {
        put_digit(out, at, half, k);
    }
}

// The digit at a place of the words, or its mirror image.
fn digit(words: &[u8], at: usize, positive: usize, mirrored: bool) -> usize
    requires { positive < 128 }
    ensures digit { result ≡ word_digit positive words.now mirrored at }
    ensures within { result < 256 }
{
    let stored = usize::from(octets::byte_at(words, at));
    if mirrored {
        mirror(positive, stored)
    } else {
        stored
    }
}

// A word, or its mirror image, as a number, whose order is that of the words.
fn number(shape: Shape, words: &[u8], k: usize, mirrored: bool) -> usize
    requires { (shape.positive < 128) × (shape.width ≤ 8) × (k < 256) }
    ensures { result ≡ word_number shape.positive shape.width words.now mirrored k }
{
    let Shape { positive, width } = shape;
    let mut all = 0;
    for i in 0..width {
        all = all * 256 + digit(words, width * k + i, positive, mirrored);
    }
    all
}

fn below(number: usize, limit: usize) -> usize
    ensures one { result ≡ cond (ltb number limit) 1 0 }
    ensures within { result ≤ 1 }
{
    usize::from(number < limit)
}

// How many of a leaf's word and its mirror image are below a number.
fn images_below(shape: Shape, words: &[u8], k: usize, limit: usize) -> usize
    requires { (shape.positive < 128) × (shape.width ≤ 8) × (k < 256) }
    ensures images { result ≡ images_below shape.positive shape.width words.now limit k }
    ensures within { result ≤ 2 }
{
    let stored = below(number(shape, words, k, false), limit);
    if octets::byte_at(words, shape.width * k) == 0 {
        stored
    } else {
        stored + below(number(shape, words, k, true), limit)
    }
}

// How many leaves, and how many digits of their words, are below a number.
fn place_of(shape: Shape, words: &[u8], lengths: &[u8], limit: usize) -> Place
    requires { (shape.positive < 128) × (shape.width ≤ 8) × (length lengths.now ≤ 128) }
    ensures leaf { result.leaf
        ≡ leaf_place shape.positive shape.width words.now lengths.now limit (length lengths.now) }
    ensures word { result.word
        ≡ word_place shape.positive shape.width words.now lengths.now limit (length lengths.now) }
    ensures within { (result.leaf ≤ 256) × (result.word ≤ 65536) }
{
    let mut leaf = 0;
    let mut word = 0;
    for k in 0..lengths.len() {
        let images = images_below(shape, words, k, limit);
        leaf += images;
        word += images * usize::from(octets::byte_at(lengths, k));
    }
    Place { leaf, word }
}

fn put_word(
    out: &mut [u8],
    at: usize,
    shape: Shape,
    words: &[u8],
    k: usize,
    size: usize,
    mirrored: bool,
)
    requires { (at < 1048576) × (shape.positive < 128) × (shape.width ≤ 8) × (k < 256) × (size < 256) }
    ensures { out.new ≡ put_word shape.positive shape.width words.now mirrored k out.old at size }
{
    let Shape { positive, width } = shape;
    for i in 0..size {
        store(
            out,
            at + i,
            digit(words, width * k + i, positive, mirrored) as u8,
        );
    }
}

// A leaf, or its mirror image, in its place: offset, length, weight, and the word.
fn put_leaf(
    out: &mut [u8],
    at: Sections,
    shape: Shape,
    words: &[u8],
    lengths: &[u8],
    weights: &[u8],
    k: usize,
    mirrored: bool,
)
    requires sections { (at.leaves < 65536) × (at.words < 65536) }
    requires shape { (shape.positive < 128) × (shape.width ≤ 8) × (length lengths.now ≤ 128) × (k < 128) }
    ensures { out.new
        ≡ put_leaf shape.positive shape.width words.now lengths.now weights.now
        at.leaves at.words mirrored k out.old }
{
    let place = place_of(shape, words, lengths, number(shape, words, k, mirrored));
    let record = at.leaves + 8 * place.leaf;
    let start = place.word;
    let size = usize::from(octets::byte_at(lengths, k));
    put_number(out, record, start);
    put_number(out, record + 2, size);
    put_number(out, record + 4, bits(octets::byte_at(weights, k), mirrored));
    put_word(out, at.words + start, shape, words, k, size, mirrored);
}

fn put_leaves(
    out: &mut [u8],
    at: Sections,
    shape: Shape,
    words: &[u8],
    lengths: &[u8],
    weights: &[u8],
)
    requires sections { (at.leaves < 65536) × (at.words < 65536) }
    requires shape { (shape.positive < 128) × (shape.width ≤ 8) × (length lengths.now ≤ 128) }
    ensures { out.new
        ≡ put_leaves shape.positive shape.width words.now lengths.now weights.now
        at.leaves at.words out.old (length lengths.now) }
{
    for k in 0..lengths.len() {
        put_leaf(out, at, shape, words, lengths, weights, k, false);
        put_leaf(out, at, shape, words, lengths, weights, k, true);
    }
}

// The whole file in a buffer: directory and base as they are given, digits and leaves where the directory says.
pub fn mirrored(
    out: &mut [u8],
    head: &[u8],
    alphabet: &[u8],
    inputs: &[u8],
    width: usize,
    lengths: &[u8],
    words: &[u8],
    weights: &[u8],
)
    requires head { (20 ≤ length head.now) × (length head.now ≤ length out.old) × (width ≤ 8) }
    requires digits { (length alphabet.now ≤ 128) × (1 ≤ length inputs.now) × (length inputs.now ≤ 128) }
    requires leaves { length lengths.now ≤ 128 }
    ensures { out.new
        ≡ mirrored_file out.old head.now alphabet.now inputs.now
        width lengths.now words.now weights.now }
{
    octets::put(out, 0, head);
    put_digits(out, layout::section_start(head, 1), alphabet);
    put_digits(out, layout::section_start(head, 2), inputs);
    let at = Sections {
        leaves: layout::section_start(head, 3),
        words: layout::section_start(head, 4),
    };
    let shape = Shape {
        positive: inputs.len() - 1,
        width,
    };
    put_leaves(out, at, shape, words, lengths, weights);
}
