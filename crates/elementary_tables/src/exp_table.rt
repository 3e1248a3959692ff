// The table of exp: 2^(j/128), rounded, and what the rounding left out.
ghost use Rattle.std.specs.Prelude.{◌≡◌};
ghost use Rattle.elementary_tables.specs.ExpTable.{exp_row_of};

// The rounded power as a bit pattern, so that its exponent can be raised, and what the rounding
// left out, relative to it.
// kept: no plainer: nothing compares or prints it
#[derive(Clone, Copy)]
pub struct ExpRow {
    pub head: u64,
    pub tail: f64,
}

static EXP_ROWS: [ExpRow; 128] = [
    ExpRow {
        head: 0x3ff0_0000_0000_0000,
        tail: 0.0,
    },
    ExpRow {
        head: 0x3ff0_163d_a9fb_3335,
        tail: 9.447885451727066e-17,
    },
    ExpRow {
        head: 0x3ff0_2c9a_3e77_8061,
        tail: -1.507066976926039e-17,
    },
    ExpRow {
        head: 0x3ff0_4315_e86e_7f85,
        tail: -5.679155082825012e-17,
    },
    ExpRow {
        head: 0x3ff0_59b0_d315_8574,
        tail: 4.9997448722726326e-17,
    },
    ExpRow {
        head: 0x3ff0_706b_29dd_f6de,
        tail: -4.823683599994895e-17,
    },
    ExpRow {
        head: 0x3ff0_8745_1875_9bc8,
        tail: 7.357846871247418e-18,
    },
    ExpRow {
        head: 0x3ff0_9e3e_cac6_f383,
        tail: 5.773230223741951e-17,
    },
    ExpRow {
        head: 0x3ff0_b558_6cf9_890f,
        tail: 8.189317638195515e-17,
    },
    ExpRow {
        head: 0x3ff0_cc92_2b72_47f7,
        tail: 5.326891139980878e-17,
    },
    ExpRow {
        head: 0x3ff0_e3ec_32d3_d1a2,
        tail: 1.6665881442326747e-18,
    },
    ExpRow {
        head: 0x3ff0_fb66_affe_d31b,
        tail: -1.128113245461828e-17,
    },
    ExpRow {
        head: 0x3ff1_1301_d012_5b51,
        tail: -7.402825309426177e-17,
    },
    ExpRow {
        head: 0x3ff1_2abd_c06c_31cc,
        tail: -3.578659767309563e-18,
    },
    ExpRow {
        head: 0x3ff1_429a_aea9_2de0,
        tail: -6.170654745608695e-17,
    },
    ExpRow {
        head: 0x3ff1_5a98_c8a5_8e51,
        tail: 2.919139999949279e-17,
    },
    ExpRow {
        head: 0x3ff1_72b8_3c7d_517b,
        tail: -2.7939114859515733e-17,
    },
    ExpRow {
        head: 0x3ff1_8af9_388c_8dea,
        tail: -5.399285355184285e-17,
    },
    ExpRow {
        head: 0x3ff1_a35b_eb6f_cb75,
        tail: 4.776959425256223e-17,
    },
    ExpRow {
        head: 0x3ff1_bbe0_8404_5cd4,
        tail: -7.927701432338473e-17,
    },
    ExpRow {
        head: 0x3ff1_d487_3168_b9aa,
        tail: 9.341710609905046e-17,
    },
    ExpRow {
        head: 0x3ff1_ed50_22fc_d91d,
        tail: -5.534520675707472e-17,
    },
    ExpRow {
        head: 0x3ff2_063b_8862_8cd6,
        tail: 4.585670326662351e-17,
    },
    ExpRow {
        head: 0x3ff2_1f49_917d_dc96,
        tail: 2.8582430411116143e-17,
    },
    ExpRow {
        head: 0x3ff2_387a_6e75_6238,
        tail: 7.826573258636076e-17,
    },
    ExpRow {
        head: 0x3ff2_51ce_4fb2_a63f,
        tail: 4.053626906769216e-17,
    },
    ExpRow {
        head: 0x3ff2_6b45_65e2_7cdd,
        tail: 2.823784425951061e-17,
    },
    ExpRow {
        head: 0x3ff2_84df_e1f5_6381,
        tail: -7.882802262487991e-17,
    },
    ExpRow {
        head: 0x3ff2_9e9d_f51f_dee1,
        tail: 3.2904726646008416e-17,
    },
    ExpRow {
        head: 0x3ff2_b87f_d0da_d990,
        tail: -1.5792094703347882e-18,
    },
    ExpRow {
        head: 0x3ff2_d285_a6e4_030b,
        tail: 4.721368121170128e-17,
    },
    ExpRow {
        head: 0x3ff2_ecaf_a93e_2f56,
        tail: 1.3045277096919659e-17,
    },
    ExpRow {
        head: 0x3ff3_06fe_0a31_b715,
        tail: 3.3484623336251524e-17,
    },
    ExpRow {
        head: 0x3ff3_2170_fc4c_d831,
        tail: 3.8611199774925664e-17,
    },
    ExpRow {
        head: 0x3ff3_3c08_b264_16ff,
        tail: 5.527550048505249e-17,
    },
    ExpRow {
        head: 0x3ff3_56c5_5f92_9ff1,
        tail: -3.927184172445234e-17,
    },
    ExpRow {
        head: 0x3ff3_71a7_373a_a9cb,
        tail: -6.346552106729483e-17,
    },
    ExpRow {
        head: 0x3ff3_8cae_6d05_d866,
        tail: -8.684417614865944e-17,
    },
    ExpRow {
        head: 0x3ff3_a7db_34e5_9ff7,
        tail: -1.5456342819397733e-17,
    },
    ExpRow {
        head: 0x3ff3_c32d_c313_a8e5,
        tail: -8.70763476495455e-17,
    },
    ExpRow {
        head: 0x3ff3_dea6_4c12_3422,
        tail: 3.750854201303127e-17,
    },
    ExpRow {
        head: 0x3ff3_fa45_04ac_801c,
        tail: -6.616854503526488e-17,
    },
    ExpRow {
        head: 0x3ff4_160a_21f7_2e2a,
        tail: -5.346099009198751e-18,
    },
    ExpRow {
        head: 0x3ff4_31f5_d950_a897,
        tail: -2.443726321015018e-17,
    },
    ExpRow {
        head: 0x3ff4_4e08_6061_892d,
        tail: 2.1023049675215714e-18,
    },
    ExpRow {
        head: 0x3ff4_6a41_ed1d_0057,
        tail: 7.771067937501065e-17,
    },
    ExpRow {
        head: 0x3ff4_86a2_b5c1_3cd0,
        tail: 1.3357510088834541e-17,
    },
    ExpRow {
        head: 0x3ff4_a32a_f0d7_d3de,
        tail: 6.938291696959204e-17,
    },
    ExpRow {
        head: 0x3ff4_bfda_d536_2a27,
        tail: 1.9572585293112036e-17,
    },
    ExpRow {
        head: 0x3ff4_dcb2_99fd_dd0d,
        tail: 6.632256961675804e-17,
    },
    ExpRow {
        head: 0x3ff4_f9b2_769d_2ca7,
        tail: -5.478069123926778e-17,
    },
    ExpRow {
        head: 0x3ff5_16da_a2cf_6642,
        tail: -4.140839310392624e-17,
    },
    ExpRow {
        head: 0x3ff5_342b_569d_4f82,
        tail: -2.1571477251208752e-17,
    },
    ExpRow {
        head: 0x3ff5_51a4_ca5d_920f,
        tail: -3.8287766552120535e-17,
    },
    ExpRow {
        head: 0x3ff5_6f47_36b5_27da,
        tail: 6.663804589232195e-17,
    },
    ExpRow {
        head: 0x3ff5_8d12_d497_c7fd,
        tail: 2.3936187400285282e-17,
    },
    ExpRow {
        head: 0x3ff5_ab07_dd48_5429,
        tail: 5.68648095791174e-17,
    },
    ExpRow {
        head: 0x3ff5_c926_8a59_46b7,
        tail: 1.1264523354521684e-18,
    },
    ExpRow {
        head: 0x3ff5_e76f_15ad_2148,
        tail: 7.007875046906994e-17,
    },
    ExpRow {
        head: 0x3ff6_05e1_b976_dc09,
        tail: -5.0119214278381254e-17,
    },
    ExpRow {
        head: 0x3ff6_247e_b03a_5585,
        tail: -4.8923067513522756e-17,
    },
    ExpRow {
        head: 0x3ff6_4346_34cc_c320,
        tail: -3.5260089953269434e-17,
    },
    ExpRow {
        head: 0x3ff6_6238_8255_2225,
        tail: -6.872303720902018e-17,
    },
    ExpRow {
        head: 0x3ff6_8155_d44c_a973,
        tail: 5.001446664133532e-18,
    },
    ExpRow {
        head: 0x3ff6_a09e_667f_3bcd,
        tail: -6.835808657661922e-17,
    },
    ExpRow {
        head: 0x3ff6_c012_750b_dabf,
        tail: -1.1307344092910212e-17,
    },
    ExpRow {
        head: 0x3ff6_dfb2_3c65_1a2f,
        tail: -8.416011634717156e-18,
    },
    ExpRow {
        head: 0x3ff6_ff7d_f951_9484,
        tail: -2.9247977035436566e-17,
    },
    ExpRow {
        head: 0x3ff7_1f75_e8ec_5f74,
        tail: -2.092304381843353e-17,
    },
    ExpRow {
        head: 0x3ff7_3f9a_48a5_8174,
        tail: -3.9778645875427124e-17,
    },
    ExpRow {
        head: 0x3ff7_5feb_5642_67c9,
        tail: -3.833464968654295e-17,
    },
    ExpRow {
        head: 0x3ff7_8069_4fde_5d3f,
        tail: 5.763611164480894e-17,
    },
    ExpRow {
        head: 0x3ff7_a114_73eb_0187,
        tail: -2.3591094770850053e-17,
    },
    ExpRow {
        head: 0x3ff7_c1ed_0130_c132,
        tail: 7.260074661098575e-17,
    },
    ExpRow {
        head: 0x3ff7_e2f3_36cf_4e62,
        tail: 9.50689710108796e-18,
    },
    ExpRow {
        head: 0x3ff8_0427_543e_1a12,
        tail: -4.272956133839906e-17,
    },
    ExpRow {
        head: 0x3ff8_2589_994c_ce13,
        tail: -6.735219232374683e-17,
    },
    ExpRow {
        head: 0x3ff8_471a_4623_c7ad,
        tail: -2.8396044410430936e-17,
    },
    ExpRow {
        head: 0x3ff8_68d9_9b44_92ed,
        tail: -7.226635472101257e-17,
    },
    ExpRow {
        head: 0x3ff8_8ac7_d98a_6699,
        tail: 5.786121003395918e-17,
    },
    ExpRow {
        head: 0x3ff8_ace5_422a_a0db,
        tail: 5.1548301170786783e-17,
    },
    ExpRow {
        head: 0x3ff8_cf32_16b5_448c,
        tail: -9.416257568878152e-18,
    },
    ExpRow {
        head: 0x3ff8_f1ae_9915_7736,
        tail: 2.4253985766689806e-17,
    },
    ExpRow {
        head: 0x3ff9_145b_0b91_ffc6,
        tail: -6.604314051707707e-17,
    },
    ExpRow {
        head: 0x3ff9_3737_b0cd_c5e5,
        tail: -6.432131775424189e-18,
    },
    ExpRow {
        head: 0x3ff9_5a44_cbc8_520f,
        tail: -1.2204007601863921e-17,
    },
    ExpRow {
        head: 0x3ff9_7d82_9fde_4e50,
        tail: -6.336161863401293e-17,
    },
    ExpRow {
        head: 0x3ff9_a0f1_70ca_07ba,
        tail: -3.7800879246373815e-17,
    },
    ExpRow {
        head: 0x3ff9_c491_82a3_f090,
        tail: 1.5341410053603723e-17,
    },
    ExpRow {
        head: 0x3ff9_e863_19e3_2323,
        tail: 1.2932855580427452e-17,
    },
    ExpRow {
        head: 0x3ffa_0c66_7b5d_e565,
        tail: -4.123367330661149e-17,
    },
    ExpRow {
        head: 0x3ffa_309b_ec4a_2d33,
        tail: 4.703083974463456e-17,
    },
    ExpRow {
        head: 0x3ffa_5503_b23e_255d,
        tail: -6.152602891550265e-17,
    },
    ExpRow {
        head: 0x3ffa_799e_1330_b358,
        tail: 5.827849326195279e-17,
    },
    ExpRow {
        head: 0x3ffa_9e6b_5579_fdbf,
        tail: 3.540948262646183e-17,
    },
    ExpRow {
        head: 0x3ffa_c36b_bfd3_f37a,
        tail: -3.2741571320938764e-17,
    },
    ExpRow {
        head: 0x3ffa_e89f_995a_d3ad,
        tail: 4.875160526227062e-17,
    },
    ExpRow {
        head: 0x3ffb_0e07_298d_b666,
        tail: -5.718569790077838e-17,
    },
    ExpRow {
        head: 0x3ffb_33a2_b84f_15fb,
        tail: -4.719539664590972e-18,
    },
    ExpRow {
        head: 0x3ffb_5972_8de5_593a,
        tail: -5.773451958805706e-17,
    },
    ExpRow {
        head: 0x3ffb_7f76_f2fb_5e47,
        tail: -1.0772487078934056e-17,
    },
    ExpRow {
        head: 0x3ffb_a5b0_30a1_064a,
        tail: -6.221808618533911e-17,
    },
    ExpRow {
        head: 0x3ffb_cc1e_904b_c1d2,
        tail: 1.821405440362259e-17,
    },
    ExpRow {
        head: 0x3ffb_f2c2_5bd7_1e09,
        tail: -6.155536546227639e-17,
    },
    ExpRow {
        head: 0x3ffc_199b_dd85_529c,
        tail: 1.685487290628973e-17,
    },
    ExpRow {
        head: 0x3ffc_40ab_5fff_d07a,
        tail: 5.3581249177694816e-17,
    },
    ExpRow {
        head: 0x3ffc_67f1_2e57_d14b,
        tail: 3.621615935336894e-17,
    },
    ExpRow {
        head: 0x3ffc_8f6d_9406_e7b5,
        tail: 8.588379527574144e-18,
    },
    ExpRow {
        head: 0x3ffc_b720_dcef_9069,
        tail: 1.01562190116415e-17,
    },
    ExpRow {
        head: 0x3ffc_df0b_555d_c3fa,
        tail: -2.869134889187244e-17,
    },
    ExpRow {
        head: 0x3ffd_072d_4a07_897c,
        tail: -5.495118966122005e-17,
    },
    ExpRow {
        head: 0x3ffd_2f87_080d_89f2,
        tail: -5.56965572431627e-17,
    },
    ExpRow {
        head: 0x3ffd_5818_dcfb_a487,
        tail: 1.790126907604513e-17,
    },
    ExpRow {
        head: 0x3ffd_80e3_16c9_8398,
        tail: -3.2211766346200164e-17,
    },
    ExpRow {
        head: 0x3ffd_a9e6_03db_3285,
        tail: 5.265370768556274e-17,
    },
    ExpRow {
        head: 0x3ffd_d321_f301_b460,
        tail: 3.5089866402403033e-17,
    },
    ExpRow {
        head: 0x3ffd_fc97_337b_9b5f,
        tail: -3.266924100901318e-17,
    },
    ExpRow {
        head: 0x3ffe_2646_14f5_a129,
        tail: -4.3657593008079375e-17,
    },
    ExpRow {
        head: 0x3ffe_502e_e78b_3ff6,
        tail: 1.7963932659833022e-17,
    },
    ExpRow {
        head: 0x3ffe_7a51_fbc7_4c83,
        tail: 3.4300925275214166e-17,
    },
    ExpRow {
        head: 0x3ffe_a4af_a2a4_90da,
        tail: -5.545065618639427e-17,
    },
    ExpRow {
        head: 0x3ffe_cf48_2d8e_67f1,
        tail: -5.149009745457733e-17,
    },
    ExpRow {
        head: 0x3ffe_fa1b_ee61_5a27,
        tail: 5.336805878514151e-17,
    },
    ExpRow {
        head: 0x3fff_252b_376b_ba97,
        tail: 3.498978661192973e-17,
    },
    ExpRow {
        head: 0x3fff_5076_5b6e_4540,
        tail: 4.5784915277060095e-17,
    },
    ExpRow {
        head: 0x3fff_7bfd_ad9c_be14,
        tail: -5.241934575393899e-17,
    },
    ExpRow {
        head: 0x3fff_a7c1_819e_90d8,
        tail: 2.0414278897578303e-17,
    },
    ExpRow {
        head: 0x3fff_d3c2_2b8f_71f1,
        tail: 4.124842848606488e-18,
    },
];

// The row of j, and from 127 on the last.
pub fn exp_row(j: u64) -> ExpRow
    ensures { result ≡ exp_row_of j }
{
    EXP_ROWS[j.min(127) as usize]
}
