// The restart file's functions, under their names in C. Each calls its namesake in restart and promises what that one does.

#![tactic(auto)]

ghost use Rattle.std.specs.Prelude.{◌≡◌};
ghost use Rattle.rules.specs.Answers.{restart_word, append_word};
ghost use Rattle.rules.specs.Restart.{restart, append_at};

#[unsafe(no_mangle)]
pub extern "C" fn wankitare_restart(file: &[u8]) -> u64
    ensures { result ≡ restart_word (restart file.now) }
{
    restart::wankitare_restart(file)
}

#[unsafe(no_mangle)]
pub extern "C" fn wankitare_append_at(file_len: u64) -> u64
    ensures { result ≡ append_word (append_at file_len) }
{
    restart::wankitare_append_at(file_len)
}
