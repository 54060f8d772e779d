//! The words of the command line.
ghost use Rattle.std.specs.Prelude.{◌≡◌, Some, codes, if◌then◌else◌};
ghost use Rattle.std.specs.Str.{bytes_eq};
ghost use Rattle.std.specs.List.{list_all};
ghost use Rattle.vv_data.specs.Layout.{disk_len};
ghost use Rattle.vv_journal.specs.Geometries.{geometry_of};
ghost use Rattle.vv_run.specs.Words.{number_of_word, sizes_of, recipe_of, run_asked, to_serve, new_asked, to_generate, generate_asked, to_load, load_asked, requested_by, array_in, array_by, wanted_for, is_digit};

use vv_units::Geometry;

/// The most lines that are drawn for a generated script.
const MOST_LINES: u64 = 10_000;

/// An array that lines are served on.
#[derive(Clone, Copy, Debug, PartialEq, Eq)]
pub enum Command {
    /// An empty one of these sizes, whose image is to be made.
    New(Geometry),
    /// The one whose image is there, and is to be opened.
    Run,
}

/// A script that is to be generated.
#[derive(Clone, Copy, Debug, PartialEq, Eq)]
pub struct Recipe {
    pub seed: u64,
    /// How many lines are drawn behind the first four. At most 10,000.
    pub lines: u32,
}

/// What the words ask for.
#[derive(Clone, Copy, Debug, PartialEq, Eq)]
pub enum Request {
    /// To serve the script of the source on an array.
    Serve(Command),
    /// To write a generated script.
    Generate(Recipe),
    /// To make the image of an empty array of these sizes, and to serve a generated script on it.
    Load(Geometry, Recipe),
}

/// The disk that the words ask for.
#[derive(Clone, Copy, Debug, PartialEq, Eq)]
pub enum Wanted {
    /// None.
    Nothing,
    /// A new one of this length.
    Create { len: u64 },
    /// One that is there.
    Open,
}

/// The disk that the words ask for: a new one for `new PATH CHUNKS BLOCKS MAP` and `load PATH CHUNKS BLOCKS MAP SEED LINES`, one
/// that is there for `run PATH`, and none for other words.
pub fn disk_wanted(words: &[String]) -> Wanted
    ensures { result ≡ wanted_for (array_by words.now) }
{
    match array_in(request_of(words)) {
        Some(Command::New(geometry)) => Wanted::Create {
            len: disk_len(geometry),
        },
        Some(Command::Run) => Wanted::Open,
        None => Wanted::Nothing,
    }
}

/// The array that is to be made or opened.
fn array_in(request: Option<Request>) -> Option<Command>
    ensures { result ≡ array_in request }
{
    match request {
        Some(Request::Serve(command)) => Some(command),
        Some(Request::Load(geometry, _)) => Some(Command::New(geometry)),
        Some(Request::Generate(_)) | None => None,
    }
}

/// What the words ask for, if they have one of the forms and their numbers are inside their limits.
pub(crate) fn request_of(words: &[String]) -> Option<Request>
    ensures { result ≡ requested_by words.now }
{
    match words {
        [verb, _] => run_asked(verb),
        [verb, seed, lines] => generate_asked(verb, seed, lines),
        [verb, _, chunks, blocks, map] => new_asked(verb, chunks, blocks, map),
        [verb, _, chunks, blocks, map, seed, lines] => {
            load_asked(verb, chunks, blocks, map, seed, lines)
        }
        _ => None,
    }
}

fn run_asked(verb: &str) -> Option<Request>
    ensures { result ≡ run_asked verb.now }
{
    if verb == "run" {
        Some(Request::Serve(Command::Run))
    } else {
        None
    }
}

fn new_asked(verb: &str, chunks: &str, blocks: &str, map: &str) -> Option<Request>
    ensures { result ≡ new_asked verb.now chunks.now blocks.now map.now }
{
    if verb != "new" {
        return None;
    }
    match sizes_of(number(chunks), number(blocks), number(map)) {
        Some(geometry) => Some(Request::Serve(Command::New(geometry))),
        None => None,
    }
}

fn generate_asked(verb: &str, seed: &str, lines: &str) -> Option<Request>
    ensures { result ≡ generate_asked verb.now seed.now lines.now }
{
    if verb != "gen" {
        return None;
    }
    match recipe_of(number(seed), number(lines)) {
        Some(recipe) => Some(Request::Generate(recipe)),
        None => None,
    }
}

fn load_asked(
    verb: &str,
    chunks: &str,
    blocks: &str,
    map: &str,
    seed: &str,
    lines: &str,
) -> Option<Request>
    ensures { result ≡ load_asked verb.now chunks.now blocks.now map.now seed.now lines.now }
{
    if verb != "load" {
        return None;
    }
    let sizes = sizes_of(number(chunks), number(blocks), number(map));
    load_of(sizes, recipe_of(number(seed), number(lines)))
}

fn load_of(sizes: Option<Geometry>, recipe: Option<Recipe>) -> Option<Request>
    ensures { result ≡ to_load sizes recipe }
{
    match (sizes, recipe) {
        (Some(geometry), Some(recipe)) => Some(Request::Load(geometry, recipe)),
        _ => None,
    }
}

/// The script of a seed and of so many drawn lines, if these aren't too many.
fn recipe_of(seed: Option<u64>, lines: Option<u64>) -> Option<Recipe>
    ensures { result ≡ recipe_of seed lines }
{
    match (seed, lines) {
        (Some(seed), Some(lines)) => short_recipe(seed, lines),
        _ => None,
    }
}

fn short_recipe(seed: u64, lines: u64) -> Option<Recipe>
    ensures { result ≡ recipe_of (Some seed) (Some lines) }
{
    if lines > MOST_LINES {
        return None;
    }
    Some(Recipe {
        seed,
        lines: lines as u32,
    })
}

fn number(word: &str) -> Option<u64>
    ensures { result ≡ number_of_word word.now }
{
    if word.is_empty() || word.len() > 20 || !has_digits(word) {
        return None;
    }
    word.parse::<u64>().ok()
}

fn has_digits(word: &str) -> bool
    ensures { result ≡ list_all is_digit word.now }
{
    word.as_bytes().iter().all(|b| matches!(*b, b'0'..=b'9'))
}

/// The sizes of an array of so many chunks, blocks of a chunk and entries, inside their limits.
fn sizes_of(chunks: Option<u64>, blocks: Option<u64>, map: Option<u64>) -> Option<Geometry>
    ensures { result ≡ sizes_of chunks blocks map }
{
    match (chunks, blocks, map) {
        (Some(chunks), Some(blocks), Some(map)) => geometry_of(blocks, chunks, map),
        _ => None,
    }
}

#[tactic(auto, using(crate::proofs::WordLemmas::large_blocks, crate::proofs::WordLemmas::large_chunks, crate::proofs::WordLemmas::large_map, crate::proofs::WordLemmas::made_sizes))]
fn geometry_of(blocks: u64, chunks: u64, map: u64) -> Option<Geometry>
    ensures { result ≡ geometry_of blocks chunks map }
{
    let Ok(blocks) = u32::try_from(blocks) else {
        return None;
    };
    let Ok(chunks) = u32::try_from(chunks) else {
        return None;
    };
    let Ok(map) = u32::try_from(map) else {
        return None;
    };
    Geometry::new(blocks, chunks, map)
}

/// The length of the image of an array of these sizes.
pub(crate) fn disk_len(geometry: Geometry) -> u64
    ensures { result ≡ disk_len geometry }
{
    let half = 16 * u64::from(geometry.map_chunks) + 1_048_576 + 256 + 1_048_576;
    let pool = u64::from(geometry.pool_chunks) * u64::from(geometry.chunk_blocks) * 512;
    4096 + 2 * half + pool
}
