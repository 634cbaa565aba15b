//! AES-256 on bytes, which computes products and inverses over the field as it runs.

#[derive(Drop)]
pub struct FieldCipher {
    s_box: [u8; 256],
    round_keys: [[u8; 16]; 15],
}

impl FieldCipher {
    pub fn new(key: &[u8; 32]) -> FieldCipher {
        let s_box = computed_s_box();
        let mut round_keys = [[0; 16]; 15];
        round_keys[0].copy_from_slice(&key[..16]);
        round_keys[1].copy_from_slice(&key[16..]);
        let mut constant = 1;
        for n in 2..15 {
            let mut word = last_word(&round_keys[n - 1]);
            if n % 2 == 0 {
                word.rotate_left(1);
            }
            for byte in word.iter_mut() {
                *byte = s_box[*byte as usize];
            }
            if n % 2 == 0 {
                word[0] ^= constant;
                constant = product(2, constant);
            }
            round_keys[n] = next_round_key(&round_keys[n - 2], word);
        }
        FieldCipher { s_box, round_keys }
    }

    pub fn block(&self, block: &[u8; 16]) -> [u8; 16] {
        let mut state = sum(block, &self.round_keys[0]);
        for n in 1..14 {
            state = mix_columns(&shift_rows(&self.sub_bytes(&state)));
            state = sum(&state, &self.round_keys[n]);
        }
        sum(&shift_rows(&self.sub_bytes(&state)), &self.round_keys[14])
    }

    fn sub_bytes(&self, state: &[u8; 16]) -> [u8; 16] {
        let mut result = [0; 16];
        for i in 0..16 {
            result[i] = self.s_box[state[i] as usize];
        }
        result
    }
}

fn last_word(round_key: &[u8; 16]) -> [u8; 4] {
    [round_key[12], round_key[13], round_key[14], round_key[15]]
}

/// The round key made from the round key two before it and the word `step`.
fn next_round_key(before: &[u8; 16], step: [u8; 4]) -> [u8; 16] {
    let mut round_key = [0; 16];
    for i in 0..16 {
        let previous = if i < 4 { step[i] } else { round_key[i - 4] };
        round_key[i] = before[i] ^ previous;
    }
    round_key
}

fn sum(left: &[u8; 16], right: &[u8; 16]) -> [u8; 16] {
    let mut result = [0; 16];
    for i in 0..16 {
        result[i] = left[i] ^ right[i];
    }
    result
}

fn shift_rows(state: &[u8; 16]) -> [u8; 16] {
    let mut result = [0; 16];
    for i in 0..16 {
        result[i] = state[(5 * i) % 16];
    }
    result
}

fn mix_columns(state: &[u8; 16]) -> [u8; 16] {
    let mut result = [0; 16];
    for i in 0..16 {
        let column = 4 * (i / 4);
        result[i] = product(2, state[i])
            ^ product(3, state[column + (i + 1) % 4])
            ^ state[column + (i + 2) % 4]
            ^ state[column + (i + 3) % 4];
    }
    result
}

fn computed_s_box() -> [u8; 256] {
    let mut s_box = [0; 256];
    for x in 0..256 {
        s_box[x] = substitute(x as u8);
    }
    s_box
}

/// S (FIPS 197, 5.1.1): b + b rotated by 1, 2, 3 and 4 bits + 63, where b is the inverse.
fn substitute(byte: u8) -> u8 {
    let b = inverse(byte);
    b ^ b.rotate_left(1) ^ b.rotate_left(2) ^ b.rotate_left(3) ^ b.rotate_left(4) ^ 0x63
}

/// The byte whose product with this one is 1, or 0 for 0.
fn inverse(byte: u8) -> u8 {
    for candidate in 1..=255 {
        if product(byte, candidate) == 1 {
            return candidate;
        }
    }
    0
}

/// The product in the field, by doubling (FIPS 197, 4.2).
fn product(left: u8, right: u8) -> u8 {
    let mut result = 0;
    let mut multiple = right;
    for i in 0..8u32 {
        if left >> i & 1 == 1 {
            result ^= multiple;
        }
        multiple = double(multiple);
    }
    result
}

fn double(byte: u8) -> u8 {
    let shifted = byte << 1;
    if byte & 0x80 == 0 {
        shifted
    } else {
        shifted ^ 0x1b
    }
}
