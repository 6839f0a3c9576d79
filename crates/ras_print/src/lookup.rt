ghost use Rattle.std.specs.Prelude.{◌≡◌};
ghost use Rattle.ras_print.specs.Lookup.{name_at, relation_at, columns_at, column_at};

use ras_lexer::Text;
use ras_logic::RelId;
use ras_names::Names;

/// The name of a number; empty where there is none.
pub(crate) fn name_at(names: &[Text], number: usize) -> &[u8]
    ensures { result.now ≡ name_at names.now number }
{
    if number < names.len() {
        names[number].bytes()
    } else {
        b""
    }
}

/// The name of a relation.
pub(crate) fn relation_at(names: &Names, relation: usize) -> &[u8]
    ensures { result.now ≡ relation_at names.now relation }
{
    let relations = names.relations.as_slice();
    if relation < relations.len() {
        relations[relation].name.bytes()
    } else {
        b""
    }
}

/// The names of the columns of a relation.
pub(crate) fn columns_at(names: &Names, relation: usize) -> &[Text]
    ensures { result.now ≡ columns_at names.now relation }
{
    let relations = names.relations.as_slice();
    if relation < relations.len() {
        relations[relation].columns.as_slice()
    } else {
        &[]
    }
}

/// The name of a column of the row of this number.
pub(crate) fn column_at<'a>(
    names: &'a Names,
    relations: &[RelId],
    row: usize,
    column: usize,
) -> &'a [u8]
    ensures { result.now ≡ column_at names.now relations.now row column }
{
    if row < relations.len() {
        name_at(columns_at(names, relations[row].n as usize), column)
    } else {
        b""
    }
}
