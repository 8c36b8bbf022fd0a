//! Laws of descriptions: their texts, shapes and files, and the way back.

ghost use Rattle.tbl_maker.specs.Laws.{TextsHaveOneDescription, WordsHaveOneShape, ShapesAndFilesHaveOneDescription};
ghost use Rattle.tbl_maker.specs.Laws.{MadeFilesAreDescribed, DescribedFilesAreMadeAgain};

use table_files::written_files_are_read;

/// No two descriptions have one text.
pub fn a_text_has_one_description()
    ensures { TextsHaveOneDescription }
{}

/// No two shapes have one word.
pub fn a_word_has_one_shape()
    ensures { WordsHaveOneShape }
{}

/// No two descriptions have one shape and tell the same name, offset and image.
pub fn a_shape_and_a_file_have_one_description()
    ensures { ShapesAndFilesHaveOneDescription }
{}

/// What is made of a description, described by the description's shape, gives the description back, and no other text.
pub fn made_files_are_described()
    ensures { MadeFilesAreDescribed }
{
    written_files_are_read();
}

/// What is made of a text that a file was described by is a table file of the same offset, number of image bytes, name and
/// image.
pub fn described_files_are_made_again()
    ensures { DescribedFilesAreMadeAgain }
{
    written_files_are_read();
}
