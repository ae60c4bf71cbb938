//! Four fields of a program at once.

use crate::field::{FlatField, FlatFields, ProgramField, ProgramFields};
use crate::keys::KeyTest;
use crate::part::ProgramPart;
use bpaf::{Four, FourFields, FourValues};

impl<
    S: Drop,
    T: Drop,
    U: Drop,
    V: Drop,
    W,
    A: ProgramField<S>,
    B: ProgramField<T>,
    C: ProgramField<U>,
    D: ProgramField<V>,
    R: ProgramFields<W>,
> ProgramFields<FourValues<S, T, U, V, W>> for Four<A, B, C, D, R> {
    fn fields_part(&self) -> ProgramPart {
        self.fields.fields_part()
    }

    fn all_keys<N: KeyTest>(&self, test: &N) -> bool {
        self.fields.all_keys(test)
    }
}

impl<
    S: Drop,
    T: Drop,
    U: Drop,
    V: Drop,
    W,
    A: FlatField<S>,
    B: FlatField<T>,
    C: FlatField<U>,
    D: FlatField<V>,
    R: FlatFields<W>,
> FlatFields<FourValues<S, T, U, V, W>> for Four<A, B, C, D, R> {}
