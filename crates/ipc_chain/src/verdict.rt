ghost use Rattle.std.specs.Prelude.{◌≡◌, ◌≢◌, ◌↔◌, [], ◌∷◌, ◌++◌, List, map, IfOk, IfSome, IsTrue, None, Some};
ghost use Rattle.ipc_check.specs.Faults.{IsFirstFaultAfter};
ghost use Rattle.ipc_trace.specs.Parts.{PartParts};
ghost use Rattle.ipc_chain.specs.Chains.{BreaksBehind, ChainFrom, FollowsEach, HasBefore, IsChain, begun, entries_of, has_joined, parts_of};
ghost use Rattle.ipc_chain.specs.Finding.{IfBroken, IfWhole};
ghost use Rattle.ipc_chain.specs.Judging.{StandsBehind, Walks};
ghost use Rattle.ipc_chain.specs.declared.verdict.ChainVerdict.TheVariants.{NoEntry, Yes};

use crate::chain::{Chain, NotNext};
use crate::difference::Difference;
use crate::witness::seek;
use ipc_history::{Entry, Output};
use ipc_trace::Part;
use std::alloc::{AllocError, Global};

/// Whether the entries of several files are one history.
#[derive(Drop)]
pub enum ChainVerdict {
    /// They are.
    Yes,
    /// An entry does not follow those before it.
    NoEntry {
        /// The place of its file, 0 for the trace.
        file: usize,
        /// Its place among the entries of the file, which came since.
        index: usize,
        /// The output that the rules ask for there; none where they ask for an admissible input.
        expected: Option<Output>,
    },
    /// A part does not begin where the files before it end.
    NoPart {
        /// The place of its file.
        file: usize,
        /// Where it says something else.
        difference: Difference,
    },
}

/// Where an entry does not follow those before it.
#[derive(Clone, Copy)]
struct Fault {
    index: usize,
    expected: Option<Output>,
}

/// Whether the entries of a trace, and of these parts, each in its turn, are one history, and each
/// part has the base and the kept entries of what stands before it.
///
/// # Errors
///
/// Where memory is refused.
pub fn check_chain(
    alloc: Global,
    entries: Vec<Entry>,
    parts: Vec<Part>,
) -> Result<ChainVerdict, AllocError>
    // A yes is said of one history, and of that alone.
    ensures yes { IfOk result (λ verdict. (verdict ≡ Yes)
        ↔ IsChain entries.items (map parts_of parts.items)) }
{
    let mut chain = Chain::new(alloc)?;
    match walk_files(&mut chain, entries, parts)? {
        Some(verdict) => Ok(verdict),
        None => {
            chain.legal();
            Ok(ChainVerdict::Yes)
        }
    }
}

/// Whether the entries of parts, each in its turn, are one history with one that ends as the first
/// part says, and each further part has the base and the kept entries of what stands before it.
/// None where no history was found that ends so: there may be one. The verdict counts the first
/// part as file 0.
///
/// # Errors
///
/// Where memory is refused.
pub fn check_parts(
    alloc: Global,
    first: Part,
    parts: Vec<Part>,
) -> Result<Option<ChainVerdict>, AllocError>
    // A yes is said of a history that is there.
    ensures yes { IfOk result (λ verdict. verdict ≡ Some Yes
        → HasBefore (parts_of first ∷ map parts_of parts.items)) }
    // And the entries of the first part follow each history that ends as it says.
    ensures each { IfOk result (λ verdict. verdict ≡ Some Yes → FollowsEach (parts_of first)) }
    // A no is said of entries behind a history that ends as the first part says.
    ensures no { IfOk result (λ verdict. IfSome verdict (λ verdict. verdict ≢ Yes
        → BreaksBehind (parts_of first) (map parts_of parts.items))) }
{
    match chain_behind(alloc, first, parts)? {
        Behind::Whole(chain) => {
            chain.legal();
            Ok(Some(ChainVerdict::Yes))
        }
        Behind::No(verdict) => Ok(Some(verdict)),
        Behind::Unknown => Ok(None),
    }
}

/// What is found of the entries of parts, of which the first begins in the middle of a history.
#[derive(Drop)]
pub enum Behind {
    /// Some history ends as the first part says, and with the entries of all parts it is this one.
    Whole(Chain),
    /// Behind such a history they are none, for this reason.
    No(ChainVerdict),
    /// No history was found that ends so: there may be one.
    Unknown,
}

/// Some history that ends as the first of these parts says, with the entries of all of them, each
/// in its turn. A verdict counts the first part as file 0.
///
/// # Errors
///
/// Where memory is refused.
pub fn chain_behind(alloc: Global, first: Part, parts: Vec<Part>) -> Result<Behind, AllocError>
    ensures whole { IfOk result (IfWhole (StandsBehind (parts_of first ∷ map parts_of parts.items))) }
    ensures no { IfOk result (IfBroken (λ verdict. (verdict ≢ Yes)
        × BreaksBehind (parts_of first) (map parts_of parts.items))) }
{
    let mut chain = Chain::new(alloc)?;
    if !seek(alloc, &mut chain, &first.base, &first.kept)? {
        return Ok(Behind::Unknown);
    }
    match walk_part(&mut chain, 0, first)? {
        Some(verdict) => {
            if joins(&verdict) {
                Ok(Behind::No(verdict))
            } else {
                Ok(Behind::Unknown)
            }
        }
        None => match walk_parts(&mut chain, parts)? {
            Some(verdict) => Ok(Behind::No(verdict)),
            None => Ok(Behind::Whole(chain)),
        },
    }
}

// Whether the part of a verdict begins where the history before it ends.
fn joins(verdict: &ChainVerdict) -> bool
    ensures { result ≡ has_joined (Some verdict.now) }
{
    match verdict {
        ChainVerdict::Yes | ChainVerdict::NoEntry { .. } => true,
        ChainVerdict::NoPart { .. } => false,
    }
}

// Takes the entries of files, one after the other; a verdict where they are not one history.
pub(crate) fn walk_files(
    chain: &mut Chain,
    entries: Vec<Entry>,
    parts: Vec<Part>,
) -> Result<Option<ChainVerdict>, AllocError>
    requires past { chain.old.past ≡ [] }
    requires taken { chain.old.taken ≡ [] }
    requires told { chain.old.told ≡ 0 }
    ensures on { IfOk result (λ verdict. verdict ≡ None → (rest : List PartParts)
        → IsChain entries.items (map parts_of parts.items ++ rest)
        ↔ ChainFrom chain.new.past chain.new.taken chain.new.told rest) }
    ensures no { IfOk result (λ verdict. IfSome verdict (λ verdict. (verdict ≢ Yes)
        × ((rest : List PartParts) → IsChain entries.items (map parts_of parts.items ++ rest) → ⊥))) }
{
    match walk(chain, entries)? {
        Some(fault) => Ok(Some(no_entry(0, fault))),
        None => {
            let verdict = walk_parts(chain, parts)?;
            Ok(verdict)
        }
    }
}

// Takes parts, one after the other; a verdict where they do not stand behind the history.
fn walk_parts(chain: &mut Chain, parts: Vec<Part>) -> Result<Option<ChainVerdict>, AllocError>
    ensures on { IfOk result (λ verdict. verdict ≡ None → (rest : List PartParts)
        → ChainFrom chain.old.past chain.old.taken chain.old.told (map parts_of parts.items ++ rest)
        ↔ ChainFrom chain.new.past chain.new.taken chain.new.told rest) }
    ensures no { IfOk result (λ verdict. IfSome verdict (λ verdict. (verdict ≢ Yes)
        × ((rest : List PartParts)
        → ChainFrom chain.old.past chain.old.taken chain.old.told (map parts_of parts.items ++ rest) → ⊥))) }
    ensures past { IfOk result (λ verdict. verdict ≡ None
        → chain.new.past ≡ chain.old.past ++ entries_of (map parts_of parts.items)) }
{
    let mut rest = parts.into_iter();
    let mut file: usize = 0;
    while let Some(part) = rest.next() {
        file = file.saturating_add(1);
        if let Some(verdict) = walk_part(chain, file, part)? {
            return Ok(Some(verdict));
        }
    }
    Ok(None)
}

// Takes a part; a verdict where it does not stand behind the history.
fn walk_part(chain: &mut Chain, file: usize, part: Part) -> Result<Option<ChainVerdict>, AllocError>
    ensures on { IfOk result (λ verdict. verdict ≡ None → (rest : List PartParts)
        → ChainFrom chain.old.past chain.old.taken chain.old.told (parts_of part ∷ rest)
        ↔ ChainFrom chain.new.past chain.new.taken chain.new.told rest) }
    ensures no { IfOk result (λ verdict. IfSome verdict (λ verdict. (verdict ≢ Yes)
        × ((rest : List PartParts)
        → ChainFrom chain.old.past chain.old.taken chain.old.told (parts_of part ∷ rest) → ⊥))) }
    ensures begins { IfOk result (λ verdict. IsTrue (has_joined verdict)
        → ChainFrom chain.old.past chain.old.taken chain.old.told (begun (parts_of part) ∷ [])) }
    ensures past { IfOk result (λ verdict. verdict ≡ None
        → chain.new.past ≡ chain.old.past ++ part.entries.items) }
{
    let Part {
        base,
        kept,
        entries,
    } = part;
    chain.legal();
    if let Some(difference) = chain.join(&base, &kept)? {
        return Ok(Some(ChainVerdict::NoPart { file, difference }));
    }
    match walk(chain, entries)? {
        Some(fault) => Ok(Some(no_entry(file, fault))),
        None => Ok(None),
    }
}

// An entry of a file does not follow.
fn no_entry(file: usize, fault: Fault) -> ChainVerdict
    ensures { result ≡ NoEntry file fault.index fault.expected }
{
    ChainVerdict::NoEntry {
        file,
        index: fault.index,
        expected: fault.expected,
    }
}

// Takes entries, one after the other, up to the first that does not follow those before it.
fn walk(chain: &mut Chain, entries: Vec<Entry>) -> Result<Option<Fault>, AllocError>
    ensures on { IfOk result (λ fault. fault ≡ None → Walks chain.old chain.new entries.items) }
    ensures fault { IfOk result (λ fault. IfSome fault (λ fault.
        IsFirstFaultAfter chain.old.past entries.items fault.index fault.expected)) }
{
    let total = entries.len();
    let mut rest = entries.into_iter();
    let mut index: usize = 0;
    while let Some(entry) = rest.next() {
        chain.legal();
        if let Some(NotNext { expected }) = chain.go_on(entry)? {
            return Ok(Some(Fault { index, expected }));
        }
        index += 1;
    }
    Ok(None)
}
