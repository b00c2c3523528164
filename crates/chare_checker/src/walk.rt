//! What a walk over an array knows of the names around it.

ghost use Rattle.std.specs.Prelude.{◌≡◌};
ghost use Rattle.job_rules.specs.Names.{bytes_at, lookup};
ghost use Rattle.job_rules.specs.Expressions.{is_local};

use job_rules::names::{Meaning, Names, bytes_at, local_named};
use job_rules::tables::JobNames;
use job_tree::token::Span;

/// The names that are declared around an expression or a statement of an array.
#[derive(Clone, Copy)]
pub struct Scope<'a> {
    /// The text that names are places in.
    pub text: &'a [u8],
    /// The names of the job.
    pub names: &'a JobNames,
    /// The names of the array.
    pub table: &'a Names,
    /// The parameters of the part.
    pub params: &'a [Span],
}

impl<'a> Scope<'a> {
    /// What a name is declared as in the array, if it is.
    pub(crate) fn meaning(&self, name: Span) -> Option<Meaning>
        ensures { result ≡ lookup self.now.table.now (bytes_at self.now.text.now name) }
    {
        self.table.get(bytes_at(self.text, name))
    }

    /// Whether a name is one of the parameters, or that of one of these loops.
    pub(crate) fn is_local(&self, loops: &[Span], name: Span) -> bool
        ensures { result ≡ is_local self.now.text.now self.now.params.now loops.now name }
    {
        local_named(self.text, self.params, name).is_some()
            || local_named(self.text, loops, name).is_some()
    }
}
