// The tables of two fields, each as a rule that has no other: their plain texts are noted as the texts of two rules are for the list.
ghost use Rattle.std.specs.Prelude.{◌≡◌};
ghost use Rattle.text_passes.specs.Notes.{noted_in};
ghost use Rattle.search_steps.specs.tables.Tables.{text_of, tables_of};

use text_values::Field;

// The row of the tables, and the constants' bytes.
#[derive(Clone, Copy)]
pub struct Tables {
    pub row: [u8; pair_row::ROW_BYTES],
    pub texts: [u8; pair_row::TEXTS_BYTES],
}

// A field is noted by its plain text, as a rule. What no reading returns has no text.
fn note_field(f: Field, right: bool, row: &mut [u8], texts: &mut [u8])
    ensures row_after { row.new ≡ (noted_in right (text_of f) row.old texts.old).0 }
    ensures texts_after { texts.new ≡ (noted_in right (text_of f) row.old texts.old).1 }
{
    let mut text = [0u8; base_limits::LONGEST_SIDE];
    let n = text_write::pieces::size_of(text_plain::write_side(
        text_values::one_field(f),
        &mut text,
    ));
    text_passes::note_side(&text[..n], right, row, texts);
}

// The tables of two fields.
pub(crate) fn tables_of(left: Field, right: Field) -> Tables
    ensures { result ≡ tables_of left right }
{
    let mut row = [0u8; pair_row::ROW_BYTES];
    let mut texts = [0u8; pair_row::TEXTS_BYTES];
    note_field(left, false, &mut row, &mut texts);
    note_field(right, true, &mut row, &mut texts);
    Tables { row, texts }
}
