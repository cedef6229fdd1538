//! The files of the desk by their names.
ghost use Rattle.std.specs.Prelude.{◌≡◌, MatchOption, Some, None};
ghost use Rattle.lent_desk.specs.Files.{file_named, lent_by};

/// A file that the desk has, or may make.
#[derive(Clone, Copy, Debug, PartialEq, Eq)]
pub enum File {
    /// `config`, the configuration.
    Config,
    /// `orgs`, the organisations.
    Orgs,
    /// `script`, the edits.
    Script,
    /// `cert`, a certificate that is checked, or another solver's proof.
    Cert,
    /// `made`, the certificate of a search.
    Made,
}

/// The caller's files.
#[derive(Clone, Copy)]
pub struct LentFiles<'a> {
    /// The configuration of the nodes.
    pub config: &'a [u8],
    /// The table of organisations.
    pub orgs: &'a [u8],
    /// The script of edits.
    pub script: &'a [u8],
    /// The certificate, or another file in its place.
    pub cert: &'a [u8],
}

/// The file of this name.
pub fn named(name: &str) -> Option<File>
    ensures { result ≡ file_named name.now }
{
    if name == "config" {
        Some(File::Config)
    } else if name == "orgs" {
        Some(File::Orgs)
    } else if name == "script" {
        Some(File::Script)
    } else if name == "cert" {
        Some(File::Cert)
    } else if name == "made" {
        Some(File::Made)
    } else {
        None
    }
}

/// The bytes of the caller's file, which has no `made`.
pub fn lent<'a>(files: LentFiles<'a>, file: File) -> Option<&'a [u8]>
    ensures { MatchOption result (lent_by files.entry file ≡ None) (λ bytes. lent_by files.entry file ≡ Some bytes.now) }
{
    match file {
        File::Config => Some(files.config),
        File::Orgs => Some(files.orgs),
        File::Script => Some(files.script),
        File::Cert => Some(files.cert),
        File::Made => None,
    }
}
