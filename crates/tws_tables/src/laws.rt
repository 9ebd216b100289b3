//! What holds for each table. This function does nothing: its contract is a theorem.

ghost use Rattle.std.specs.Prelude.{◌≡◌, ◌∷◌};
ghost use Rattle.std.specs.List.{flat_map};
ghost use Rattle.csv.specs.Reading.{default_config, records};
ghost use Rattle.csv.specs.Writing.{default_writer, row_text};
ghost use Rattle.tws_file.specs.Text.{File, IsFile};
ghost use Rattle.tws_tables.specs.Csv.{csv_names, csv_of, csv_rows};

/// The comma-separated values of a file are what the library `csv` writes for the names of the columns and the fields of
/// each solution, and it reads them back as these.
pub fn comma_separated()
    ensures written { (file : File) → IsFile file → csv_of file ≡ flat_map (row_text default_writer) (csv_names ∷ csv_rows file) }
    ensures read_back { (file : File) → IsFile file → records default_config (csv_of file) ≡ csv_names ∷ csv_rows file }
{}
