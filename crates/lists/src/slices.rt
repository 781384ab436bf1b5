// Lists as a caller hands them over: slices side by side, found to belong together.
// They are no slices of structs: the C interface hands each over as an array of its own.

ghost use Rattle.std.specs.Prelude.{◌≡◌, true, false, ◌<◌, length, MatchResult};
ghost use Rattle.lists.specs.Handed.{agrees, access_at, belong};

use octets::{Access, Form, Unwritten};

// Tags, each with its password where the form has passwords.
#[derive(Clone, Copy)]
pub(crate) struct Keys<'a> {
    pub(crate) form: Form,
    pub(crate) tags: &'a [u64],
    pub(crate) passwords: &'a [u64],
    ghost agree: { agrees form (length tags.now) (length passwords.now) ≡ true },
}

impl<'a> Keys<'a> {
    // Passwords are handed over for every tag or for none, as the form wants them.
    pub(crate) fn new(
        form: Form,
        tags: &'a [u64],
        passwords: &'a [u64],
    ) -> Result<Keys<'a>, Unwritten>
        ensures { MatchResult
            result
            (λ k. (k.form ≡ form) × (k.tags ≡ tags.entry) × (k.passwords ≡ passwords.entry))
            (λ e. (e ≡ Unwritten.Refused) × (agrees form (length tags.now) (length passwords.now) ≡ false)) }
    {
        let wanted = match form {
            Form::Plain => 0,
            Form::Password => tags.len(),
        };
        if passwords.len() != wanted {
            return Err(Unwritten::Refused);
        }
        Ok(Keys {
            form,
            tags,
            passwords,
        })
    }

    // How the right to tag i is shown.
    pub(crate) fn access(self, i: usize) -> Access
        requires { i < length self.tags.now }
        ensures { result ≡ access_at self.entry.form self.entry.passwords.now i }
    {
        match self.form {
            Form::Plain => Access::Plain,
            Form::Password => Access::Password(self.passwords[i]),
        }
    }
}

// Memory data: with each tag the part of common octets that starts at its start and has its length.
#[derive(Clone, Copy)]
pub(crate) struct Memories<'a> {
    pub(crate) keys: Keys<'a>,
    pub(crate) starts: &'a [usize],
    pub(crate) lengths: &'a [usize],
    pub(crate) src: &'a [u8],
    ghost starts_agree: { length starts.now ≡ length keys.tags.now },
    ghost lengths_agree: { length lengths.now ≡ length keys.tags.now },
}

impl<'a> Memories<'a> {
    // There are a start and a length for every tag.
    pub(crate) fn new(
        keys: Keys<'a>,
        starts: &'a [usize],
        lengths: &'a [usize],
        src: &'a [u8],
    ) -> Result<Memories<'a>, Unwritten>
        ensures { MatchResult
            result
            (λ m. (m.keys ≡ keys.entry) × (m.starts ≡ starts.entry) × (m.lengths ≡ lengths.entry) × (m.src ≡ src.entry))
            (λ e. (e ≡ Unwritten.Refused)
            × (belong keys.entry.form keys.entry.tags.now keys.entry.passwords.now starts.now lengths.now src.now ≡ false)) }
    {
        let n = keys.tags.len();
        if starts.len() != n {
            return Err(Unwritten::Refused);
        }
        if lengths.len() != n {
            return Err(Unwritten::Refused);
        }
        Ok(Memories {
            keys,
            starts,
            lengths,
            src,
        })
    }
}
