ghost use Rattle.std.specs.Prelude.{◌≡◌, ◌^◌, ◌<◌};
ghost use Rattle.selection.specs.Ranks.{compared, rank};

use layout::ExitPath;

// By what one path is better than another. An enum and no closure: the definitions, the laws and the theorems name it.
#[derive(Clone, Copy, Debug, PartialEq, Eq)]
pub enum Criterion {
    HighestPreference,
    ShortestAsPath,
    LowestMed,
}

impl Criterion {
    // A number that is lower the better the path is.
    pub fn rank(self, path: ExitPath) -> u32
        ensures value { result ≡ rank self path }
        ensures narrow { compared self path < 2 ^ 32 }
    {
        match self {
            Criterion::HighestPreference => u32::MAX - path.local_pref,
            Criterion::ShortestAsPath => path.as_path_len as u32,
            Criterion::LowestMed => path.med,
        }
    }
}
