// The word by which a version is asked for.
ghost use Rattle.std.specs.Prelude.{◌≡◌};
ghost use Rattle.command_versions.specs.VersionWord.{version_asked};

// The version that a whole number asks for; 0, which no version has, for a number of more than 32 bits.
pub(crate) fn version_asked(word: &[u8]) -> u32
    ensures { result ≡ version_asked word.now }
{
    let value = number_words::value_of(word);
    if value == number_words::ABOVE {
        return 0;
    }
    value as u32
}
