// The tests of the header: what refusals 2 and 4 ask of it.
ghost use Rattle.std.specs.Prelude.{◌≡◌, ◌≤◌, length};
ghost use Rattle.words.specs.Pool.{words_least};
ghost use Rattle.tree.specs.Header as h;

use words::Pool;

// Whether the slice is a pool by its length and its words 0 to 4.
#[tactic(auto, unfolding(crate::specs::Header::form_agrees))]
pub fn form_agrees(pool: &[u64]) -> bool
    ensures { result ≡ h.form_agrees pool.now }
{
    let size = pool.len() as u64;
    if size < Pool::WORDS_LEAST {
        return false;
    }
    let capacity = pool[Pool::CAPACITY_AT as usize];
    let total = pool[Pool::TOTAL_AT as usize];
    pool[Pool::FORM_AT as usize] == Pool::FORM
        && (1..=Pool::CAPACITY_MOST).contains(&capacity)
        && total == Pool::total_of(capacity)
        && pool[Pool::LOG_OFFSET_AT as usize] == Pool::LOG_AT
        && pool[Pool::NODES_OFFSET_AT as usize] == Pool::NODES_AT
        && total <= size
}

// Whether used, root and height keep their bounds.
#[tactic(auto, unfolding(crate::specs::Header::counts_agree))]
pub fn counts_agree(pool: &[u64]) -> bool
    requires { words_least ≤ length pool.now }
    ensures { result ≡ h.counts_agree pool.now }
{
    let used = pool[Pool::USED_AT as usize];
    let root = pool[Pool::ROOT_AT as usize];
    let height = pool[Pool::HEIGHT_AT as usize];
    (1..=pool[Pool::CAPACITY_AT as usize]).contains(&used)
        && (1..=used).contains(&root)
        && (1..=Pool::HEIGHT_MOST).contains(&height)
}
