// The version.
ghost use Rattle.std.specs.Prelude.{◌≡◌};
ghost use Rattle.nultiway.specs.Version.{version};

// Tells the version of the archive: 10,000 * major + 100 * minor + patch.
#[unsafe(no_mangle)]
pub extern "C" fn nultiway_version() -> u32
    ensures { result ≡ version }
{
    nultiway::version::nultiway_version()
}
