// What is a struct between Rattle functions, in lent words, since another language can only lend those: the globals, and the
// numbers of an export.
ghost use Rattle.std.specs.Prelude.{◌≡◌};
ghost use Rattle.sections.specs.Saved.{saved_globals, saved_export, export_saved};

use counters::Counters;
use exports::Export;
use map::Sizes;
use transactions::Globals;

// Whether the map is guarded (1 if it is), the four sizes, the three counters.
pub const GLOBAL_WORDS: usize = 8;

pub type GlobalWords = [u64; GLOBAL_WORDS];

// Whether an export is open (1 or 0), how many records it has, and how many of them portions have given: all 0 if none is open.
pub const EXPORT_NUMBERS: usize = 3;

pub type ExportWords = [u64; EXPORT_NUMBERS];

// The globals that the words hold.
#[tactic(auto, unfolding(crate::specs::Saved::saved_globals))]
pub fn load(words: &GlobalWords) -> Globals
    ensures { result ≡ saved_globals words.now }
{
    Globals {
        guarded: words[0],
        sizes: Sizes {
            records: words[1] as usize,
            leaves: words[2] as usize,
            entries: words[3] as usize,
            outside: words[4] as usize,
        },
        counters: Counters {
            number: words[5],
            version: words[6],
            installs: words[7],
        },
    }
}

// Puts the globals into the words.
pub fn store(words: &mut GlobalWords, c: Globals)
    ensures { saved_globals words.new ≡ c }
{
    *words = [
        c.guarded,
        c.sizes.records as u64,
        c.sizes.leaves as u64,
        c.sizes.entries as u64,
        c.sizes.outside as u64,
        c.counters.number,
        c.counters.version,
        c.counters.installs,
    ];
}

// The export whose numbers the words hold.
#[tactic(auto, unfolding(crate::specs::Saved::saved_export))]
pub fn load_export(words: &ExportWords) -> Option<Export>
    ensures { result ≡ saved_export words.now }
{
    if words[0] != 1 {
        return None;
    }
    Some(Export {
        count: words[1] as usize,
        taken: words[2] as usize,
    })
}

// Puts the numbers of an export into the words.
pub fn store_export(words: &mut ExportWords, x: Option<Export>)
    ensures { words.new ≡ export_saved x }
{
    *words = match x {
        Some(open) => [1, open.count as u64, open.taken as u64],
        None => [0, 0, 0],
    };
}
