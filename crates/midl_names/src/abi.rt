//! The ABI names of methods.

ghost use Rattle.std.specs.Prelude.{◌≡◌, ◌+◌, ◌<◌, ◌^◌, [], ℕ, List, IfOk, OnOk};
ghost use Rattle.std.specs.List.{All};
ghost use Rattle.midl_names.specs.Counts.{count_at};
ghost use Rattle.midl_names.specs.RawMembers.{IsRawMember};
ghost use Rattle.placed_items.specs.Named.{IsNamedMember};
ghost use Rattle.midl_names.specs.Members.{abi_name, told_count, noted, with_abi, named_from};

use std::alloc::Global;
use std::collections::HashMap;
use wr_base::{Member, Memory, Name};

fn abi_name(alloc: Global, name: &Name, count: usize) -> Result<Name, Memory>
    requires { count + 1 < 2 ^ 64 }
    ensures { IfOk result (λ r. r ≡ abi_name name.now count) }
{
    let text = name.as_str();
    if count == 0 {
        return Ok(Name::new(String::from_str(alloc, text)?));
    }
    let number = count + 1;
    let numbered = format!(in alloc; "{text}{number}")?;
    Ok(Name::new(numbered))
}

fn set_abi(alloc: Global, member: &mut Member, count: usize) -> Result<(), Memory>
    requires { count + 1 < 2 ^ 64 }
    ensures { OnOk result (member.new ≡ with_abi count member.old) }
{
    match member {
        Member::Method { name, abi, .. } => {
            *abi = abi_name(alloc, name, count)?;
            Ok(())
        }
        Member::Property { .. } => Ok(()),
        Member::Event { .. } => Ok(()),
    }
}

fn count_in(counts: &HashMap<String, usize>, name: &Name) -> usize
    ensures { result ≡ count_at counts.now name.now }
{
    match counts.get(name.as_str()) {
        Some(count) => *count,
        None => 0,
    }
}

fn count_of(counts: &HashMap<String, usize>, member: &Member) -> usize
    ensures { result ≡ told_count (count_at counts.now) member.now }
{
    match member {
        Member::Method { name, .. } => count_in(counts, name),
        Member::Property { .. } => 0,
        Member::Event { .. } => 0,
    }
}

fn note(
    alloc: Global,
    counts: &mut HashMap<String, usize>,
    member: &Member,
    count: usize,
) -> Result<(), Memory>
    requires { count + 1 < 2 ^ 64 }
    ensures { OnOk result ((name : List ℕ) → count_at counts.new name ≡ noted count member.now (count_at counts.old) name) }
{
    match member {
        Member::Method { name, .. } => {
            let text = String::from_str(alloc, name.as_str())?;
            counts.insert(text, count + 1)?;
            Ok(())
        }
        Member::Property { .. } => Ok(()),
        Member::Event { .. } => Ok(()),
    }
}

/// Gives each method its ABI name: behind the first one of its name the numeral that says the how manieth it is.
pub(crate) fn name_methods(alloc: Global, members: &mut [Member]) -> Result<(), Memory>
    ensures value { OnOk result (members.new ≡ named_from [] members.old) }
    ensures named { OnOk result (All IsRawMember members.old → All IsNamedMember members.new) }
{
    let mut counts = HashMap::new(alloc);
    for i in 0..members.len() {
        let count = count_of(&counts, &members[i]);
        note(alloc, &mut counts, &members[i], count)?;
        set_abi(alloc, &mut members[i], count)?;
    }
    Ok(())
}
