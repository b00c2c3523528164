//! Names by their places in the text, and what they are declared as.

ghost use Rattle.std.specs.Prelude.{◌≡◌, [], IfOk, OnOk, OnErr};
ghost use Rattle.job_rules.specs.Names.{bytes_at, declare, local_named, lookup, names_listed, same_name};

use chare_base::memory::Memory;
use indexmap::IndexMap;
use job_tree::token::Span;
use job_tree::tree;
use std::alloc::Global;
use std::marker::Model;

/// What a name is declared as. Numbers count from 0, in text order.
#[derive(Clone, Copy)]
pub enum Meaning {
    /// An array of the job: its number.
    Array {
        number: usize,
    },
    /// A state of an array: its number there, the place of its declaration, whether it is named without an index,
    /// its first cell's number in the element, and how many cells it has.
    State {
        number: usize,
        declared: u32,
        plain: bool,
        at: u64,
        cells: u64,
    },
    /// An entry of an array: its number among all ports of the job (entries and reductions), its number among the
    /// job's entries, the number of the array whose elements send, if there is one, and how many values a message
    /// has.
    Entry {
        port: usize,
        number: usize,
        source: Option<usize>,
        values: u64,
    },
    /// A reduction of an array: its number among all ports of the job, and among the job's reductions.
    Reduction {
        port: usize,
        number: usize,
    },
}

/// The names that are declared in a place, in the order of their first declarations. Contracts see them as a list.
#[derive(Drop)]
pub struct Names {
    map: IndexMap<Vec<u8>, Meaning>,
}

impl Model for Names {
    ghost use Rattle.std.specs.Prelude.{List};
    ghost use Rattle.job_rules.specs.Names.{Known, known};

    ghost Value = { List Known };

    ghost view = { λ n. known n.map.entries };
}

impl Names {
    /// No names.
    pub fn new(alloc: Global) -> Names
        ensures { result ≡ [] }
    {
        Names {
            map: IndexMap::new(alloc),
        }
    }

    /// What a name is declared as, if it is.
    pub fn get(&self, name: &[u8]) -> Option<Meaning>
        ensures { result ≡ lookup self.now name.now }
    {
        self.map.get(name).copied()
    }

    /// Declares a name, where it wasn't declared before.
    ///
    /// `Memory`: an allocation was refused; all is as before.
    pub fn declare(&mut self, alloc: Global, name: &[u8], meaning: Meaning) -> Result<(), Memory>
        ensures ok { OnOk result (self.new ≡ declare self.old name.now meaning) }
        ensures err { OnErr result (self.new ≡ self.old) }
    {
        if self.get(name).is_none() {
            let name = Vec::from_slice(alloc, name)?;
            self.map.insert(name, meaning)?;
        }
        Ok(())
    }
}

/// The bytes of a name, cut to the text.
pub fn bytes_at(text: &[u8], name: Span) -> &[u8]
    ensures { result.now ≡ bytes_at text.now name }
{
    let at = name.at as usize;
    let len = name.len as usize;
    if at > text.len() {
        return &[];
    }
    let behind = &text[at..];
    if len > behind.len() {
        behind
    } else {
        &behind[..len]
    }
}

/// Whether two names are spelled alike.
pub fn same_name(text: &[u8], a: Span, b: Span) -> bool
    ensures { result ≡ same_name text.now a b }
{
    bytes_at(text, a) == bytes_at(text, b)
}

/// The number of the first name in a list that is spelled so.
#[tactic(auto, unfolding(crate::specs::Names::local_named))]
pub fn local_named(text: &[u8], names: &[Span], name: Span) -> Option<usize>
    ensures { result ≡ local_named text.now names.now name }
{
    names.iter().position(|n| same_name(text, *n, name))
}

/// The names of a list of the tree.
///
/// `Memory`: an allocation was refused.
pub fn names_listed(alloc: Global, names: &tree::Names) -> Result<Vec<Span>, Memory>
    ensures { IfOk result (λ listed. listed.items ≡ names_listed names.now) }
{
    let mut listed = Vec::new(alloc);
    listed.push(names.first)?;
    listed.extend_from_slice(names.others.as_slice())?;
    Ok(listed)
}
