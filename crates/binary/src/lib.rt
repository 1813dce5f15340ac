// Polynomials over two elements modulo one of degree k: what their field means, in specs/, its laws, in proofs/, and the sums and opposites that all of them share.
// One proof of the laws serves every degree and modulus that pass four short tests.
#![tactic(auto)]

ghost use Rattle.std.specs.Prelude.{◌≡◌, ◌<◌, ◌≤◌, bit_xor};

// The sum of two symbols of a field that has Q of them; 0 where a number is no symbol.
pub fn sum<const Q: u32>(x: u32, y: u32) -> u32
    ensures within { x < Q → y < Q → result ≡ bit_xor x y }
    ensures left { Q ≤ x → result ≡ 0 }
    ensures right { Q ≤ y → result ≡ 0 }
{
    if x < Q && y < Q { x ^ y } else { 0 }
}

// The opposite of a symbol of a field that has Q of them, which is the symbol itself; 0 where the number is no symbol.
pub fn opposite<const Q: u32>(x: u32) -> u32
    ensures within { x < Q → result ≡ x }
    ensures beyond { Q ≤ x → result ≡ 0 }
{
    if x < Q { x } else { 0 }
}
