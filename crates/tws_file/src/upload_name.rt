//! The name under which a client sends a file.

ghost use Rattle.std.specs.Prelude.{◌≡◌};
ghost use Rattle.tws_file.specs.Names.{upload_name};

/// The name under which a client sends a file. It has no meaning to the server.
pub fn upload_file_name() -> &'static [u8]
    ensures { result.now ≡ upload_name }
{
    b"upload.tws"
}
