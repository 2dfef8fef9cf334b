// Making a rule of what a caller gives, if it is one.
ghost use Rattle.rules.specs.Refusals.{CheckSays};

use super::{AtomColumn, Comparison, Rule};
use crate::refusal::Refusal;
use ordered::Few;
use store::Source;

// The rule with these atoms and comparisons, or the refusal of the first question that fails.
pub fn check_rule<S: Source>(
    source: &S,
    atoms: &[u16],
    comparisons: &[Comparison],
) -> Result<Rule, Refusal>
    ensures { CheckSays (S.Source.model source.now).arity atoms.now comparisons.now result }
{
    if atoms.is_empty() || atoms.len() > 3 || comparisons.len() > 6 {
        return Err(Refusal::Malformed);
    }
    let draft = Draft { source, atoms };
    draft
        .first_undeclared()
        .map_or(Ok(()), |atom| Err(Refusal::UndeclaredAtom(atom)))?;
    draft.first_unnamed(comparisons).map_or(
        Ok(()),
        |comparison| Err(Refusal::NoSuchColumn(comparison)),
    )?;
    Ok(Rule {
        atoms: Few::of(atoms, 0),
        comparisons: Few::of(comparisons, Comparison::BLANK),
    })
}

// The atoms of a rule that is to be made, and the source that knows their relations.
#[derive(Drop)]
struct Draft<'a, S> {
    source: &'a S,
    atoms: &'a [u16],
}

impl<S: Source> Draft<'_, S> {
    ghost use Rattle.std.specs.Prelude.{◌≡◌};
    ghost use Rattle.rules.specs.Refusals.{FailSays, is_declared, names, column_named};

    // The first atom whose relation is not declared.
    fn first_undeclared(&self) -> Option<usize>
        ensures { FailSays (is_declared (S.Source.model self.now.source.now).arity) self.now.atoms.now result }
    {
        self.atoms
            .iter()
            .position(|atom| self.source.arity(*atom) == 0)
    }

    // The first comparison with a column that is none of the rule's.
    fn first_unnamed(&self, comparisons: &[Comparison]) -> Option<usize>
        ensures { FailSays (names (S.Source.model self.now.source.now).arity self.now.atoms.now) comparisons.now result }
    {
        comparisons
            .iter()
            .position(|comparison| !self.names_columns(comparison))
    }

    // Whether each side of a comparison is a constant or a column of the rule.
    fn names_columns(&self, comparison: &Comparison) -> bool
        ensures { result ≡ names (S.Source.model self.now.source.now).arity self.now.atoms.now comparison.now }
    {
        comparison.all_columns(|column| self.has_column(column))
    }

    // Whether a column is one of an atom of the rule that the atom's relation has.
    fn has_column(&self, column: AtomColumn) -> bool
        ensures { result ≡ column_named (S.Source.model self.now.source.now).arity self.now.atoms.now column }
    {
        self.atoms
            .get(column.atom as usize)
            .is_some_and(|relation| column.column < self.source.arity(*relation))
    }
}
