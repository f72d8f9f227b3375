// One list read and laid over another.

ghost use Rattle.std.specs.Prelude.{◌≡◌, map};
ghost use Rattle.std.specs.Fn.{FnReturnsAt};
ghost use Rattle.outside.specs.net_words.Laid.{laid_over};

/// Lays what `read` gives of each element over another list, from its start, as far as that has places. The rest of it stays.
pub fn lay_over<A, T: Copy, F: Fn(&A) -> T>(from: &[A], onto: &mut [T], read: F)
    requires { F.IsAlwaysCallable read }
    ensures { (f : A → T) → ((a : A) (t : T) → FnReturnsAt F.Fn read a t → t ≡ f a) → onto.new ≡ laid_over (map f from.now) onto.old }
{
    let count = from.len().min(onto.len());
    for (place, element) in from[..count].iter().enumerate() {
        onto[place] = read(element);
    }
}
