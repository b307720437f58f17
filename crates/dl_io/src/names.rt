ghost use Rattle.std.specs.Prelude.{◌≡◌, ◌↔◌, IsTrue, string_bytes, bytes_eq};
ghost use Rattle.std.specs.List.{list_any};
ghost use Rattle.dl_io.specs.Files.{files_of, HaveDifferentNames};

/// Whether no two of these files have one name, as a library in memory wants it.
pub fn names_differ(files: &[(String, Vec<u8>)]) -> bool
    ensures { IsTrue result ↔ HaveDifferentNames (files_of files.now) }
{
    let mut rest = files;
    while let Some((first, others)) = rest.split_first() {
        if has_name(others, first.0.as_str()) {
            return false;
        }
        rest = others;
    }
    true
}

/// Whether one of these files has this name.
fn has_name(files: &[(String, Vec<u8>)], name: &str) -> bool
    ensures { result ≡ list_any (λ file. bytes_eq name.now (string_bytes file.0)) files.now }
{
    files.iter().any(|file| name == file.0.as_str())
}
