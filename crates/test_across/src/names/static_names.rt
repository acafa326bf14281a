//! A static type over generated tables, which `tools/static_type.py` wrote.

ghost use Rattle.std.specs.Prelude.{[], ◌∷◌, codes};

#[cfg(test)]
use string_cache::static_sets::{StaticTables, are_perfect};
#[cfg(test)]
use string_cache::word::pack_inline_word;
use string_cache::{Atom, PhfStrSet, StaticAtomSet};

/// The tables, as they were generated.
pub static NAMES_TABLES: PhfStrSet = PhfStrSet {
    key: 0,
    disps: &[
        (0, 113),
        (4, 98),
        (0, 2),
        (5, 28),
        (0, 3),
        (1, 12),
        (0, 14),
        (0, 0),
        (1, 1),
        (7, 5),
        (0, 109),
        (9, 111),
        (0, 19),
        (1, 22),
        (0, 18),
        (21, 79),
        (2, 0),
        (0, 6),
        (22, 93),
        (232, 103),
        (1, 102),
        (11, 56),
        (94, 55),
    ],
    atoms: &[
        "flex-wrap",
        "grid-row",
        "fieldset",
        "align-content",
        "textarea",
        "template",
        "empty-cells",
        "flex-flow",
        "font-weight",
        "strictfp",
        "transient",
        "implements",
        "transitive",
        "list-style",
        "text-overflow",
        "text-align",
        "flex-direction",
        "noscript",
        "mix-blend-mode",
        "colgroup",
        "constexpr",
        "datalist",
        "object-position",
        "animation",
        "aspect-ratio",
        "translate",
        "pointer-events",
        "align-items",
        "table-layout",
        "function",
        "line-height",
        "text-shadow",
        "white-space",
        "volatile",
        "background",
        "abstract",
        "word-break",
        "multicol",
        "background-image",
        "transition",
        "position",
        "requires",
        "thread_local",
        "flex-grow",
        "min-width",
        "grid-area",
        "grid-template",
        "restrict",
        "text-transform",
        "blockquote",
        "tab-size",
        "appearance",
        "figcaption",
        "border-radius",
        "register",
        "border-spacing",
        "continue",
        "protected",
        "direction",
        "counter-reset",
        "optgroup",
        "debugger",
        "provides",
        "letter-spacing",
        "unsigned",
        "override",
        "place-content",
        "grid-column",
        "vertical-align",
        "word-spacing",
        "text-indent",
        "background-color",
        "column-rule",
        "instanceof",
        "max-height",
        "basefont",
        "interface",
        "counter-increment",
        "flex-basis",
        "caret-color",
        "column-count",
        "justify-content",
        "frameset",
        "visibility",
        "unicode-bidi",
        "justify-items",
        "nonlocal",
        "clip-path",
        "font-size",
        "text-decoration",
        "menuitem",
        "overflow",
        "perspective",
        "font-family",
        "box-shadow",
        "static_assert",
        "typeof_unqual",
        "plaintext",
        "object-fit",
        "column-gap",
        "max-width",
        "writing-mode",
        "font-variant",
        "box-sizing",
        "undefined",
        "scroll-behavior",
        "synchronized",
        "transform",
        "noframes",
        "progress",
        "font-style",
        "flex-shrink",
        "min-height",
        "arguments",
        "isolation",
    ],
    hashes: &[
        0xfe68_4350_3634_3759,
        0x9a61_39ec_c175_ff4a,
        0x3c07_4ae2_c1c9_f84f,
        0x1883_1d8c_109b_138c,
        0x0ccd_a95b_919a_5e9c,
        0xf50d_b3d0_c04b_0e2c,
        0xa682_f791_8714_d0f9,
        0x6f32_fd6f_44a2_24a8,
        0x782e_2fdb_3d02_ec0c,
        0x8d4c_82bf_3e63_79c1,
        0xf127_17fb_ace3_34ce,
        0x18af_81e6_c783_203d,
        0x30a3_50ed_f21f_bd95,
        0x741c_0cbc_3e67_6507,
        0x666b_cc71_ca3f_a35f,
        0x8814_cb7b_c337_898f,
        0xb88a_0b50_9be2_0985,
        0x940c_3a08_76e3_93f7,
        0x65ac_33ac_c0f5_072e,
        0xc212_cb28_033e_5d8c,
        0xd1f1_3bfa_c0ba_e710,
        0x6267_802a_1b82_8b49,
        0x5e6f_8769_d3a6_74db,
        0x93b7_4ffd_6c9e_2801,
        0x4d55_2050_cdf8_22a4,
        0x6dd7_2380_2a74_826c,
        0xcc5b_fbc4_343e_7afe,
        0x2a48_572a_26f3_ec3e,
        0xf43e_6b72_6a06_bf33,
        0x76ed_ed8b_a08f_57c6,
        0x8285_5000_0a8b_45c8,
        0x2207_06d1_520c_f5e6,
        0xfcd0_7905_5437_c321,
        0xe19b_9780_ab67_2419,
        0x8636_cbe6_0186_a80f,
        0xaf44_208f_5457_9fda,
        0xd208_2fe3_f4f9_24ec,
        0xbda9_7b68_dd35_5189,
        0xa46d_2f7c_7265_7d1b,
        0xb8ba_4106_c37b_9f6d,
        0xd271_3b88_765f_54b7,
        0x8b4d_df43_9650_ac27,
        0x13a6_d044_0916_f14e,
        0x751c_e3ac_0c22_d403,
        0x9c2e_4453_fb4d_76b9,
        0xf691_1815_f58d_ef21,
        0x022a_d0f8_9333_f086,
        0xf763_1751_8fcb_7f38,
        0xccef_e87f_6edb_61cb,
        0xfe8e_a144_fd65_76c8,
        0xf5cc_e08f_8516_979c,
        0xdfdd_8e9f_dbbb_8456,
        0x5083_f794_76e2_d47d,
        0x5e2c_512e_67f5_c0b3,
        0xef4b_b39d_7b78_cf5b,
        0x77c4_7c1f_8046_79b9,
        0x1fcf_df3e_f0b8_b00f,
        0xd120_2927_0374_5879,
        0xed3b_cc25_7aa6_f2ee,
        0xef2f_c60d_10f2_c7b7,
        0xfdbf_18e5_3c86_bc1f,
        0x0fbb_a358_d938_a951,
        0xc866_3707_f6d7_29d7,
        0x9dbb_1d45_9a93_a7c1,
        0x9a3f_1201_106b_eb95,
        0x9f70_a38a_1ae2_c438,
        0x3f99_4c96_27c0_6b20,
        0xee8d_cada_783d_b9f3,
        0x7e6b_abe7_be44_2a68,
        0x16fb_ebf1_0ec4_5dd4,
        0x5e28_cef6_f93f_f14f,
        0x0763_6269_3b3f_ea97,
        0x4b97_825c_cd1d_6306,
        0xfb96_7309_ceb3_3682,
        0x6a18_74eb_1982_a8b2,
        0x0d32_8539_a71a_e119,
        0x71a4_c2ac_d2c2_af84,
        0xc001_68df_5250_8a81,
        0xa5db_cc9b_a532_0347,
        0x895d_64b4_a5b9_abce,
        0xb500_fee8_afc8_178f,
        0x1315_46e1_572d_6999,
        0xfc27_868b_210f_2a88,
        0x2363_4134_9d38_f6dd,
        0xc263_0c5f_84a2_e2cb,
        0x7428_a76c_6f77_3a87,
        0x32e0_4be9_b96c_4a0b,
        0x4810_0410_e2b1_2d21,
        0xae6c_be88_5c03_1eff,
        0xa651_9ffa_cd5d_81cc,
        0x3693_e59f_4a9f_835a,
        0xbcfa_a3b8_1d89_99fc,
        0x3f3c_1411_1395_418f,
        0x95e7_d63a_6335_dfd9,
        0x42b2_e175_4378_5e7d,
        0x653c_61d0_95a5_483d,
        0x0715_d34b_7770_9866,
        0x2f41_2c4b_c5a5_ad22,
        0xa23d_e243_484a_94c1,
        0xfb09_4175_46e2_6a33,
        0x3e4c_e9e9_a2f8_2e43,
        0xe9e4_a071_0620_52ac,
        0xa1ea_34e4_794b_7176,
        0x0a54_aa83_01d9_f4cb,
        0xb5e2_3a80_b706_ba90,
        0xb27f_f766_db36_8b8a,
        0x9451_2ef3_9539_d8d5,
        0xe72f_91fb_5ffe_b5bf,
        0xc422_eb9e_796d_2103,
        0x0f7f_9652_4fd9_17e0,
        0x3c14_ad14_9a98_dfcb,
        0x9e08_68cf_1ae8_5c0c,
        0x7693_8d0c_e1e5_047a,
        0x79ea_04ec_8998_915c,
        0xb4be_7cb5_6aa9_a3f0,
    ],
};

/// The static type of these texts.
#[derive(PartialEq, Eq, PartialOrd, Ord)]
pub struct Names;

/// An atom of it.
pub type Name<'s> = Atom<'s, Names>;

/// The word of each name, which an atom's `unsafe_data` can be matched with.
impl Names {
    /// Of "a".
    pub const A: u64 = 0x0000_0000_0000_6111;
    /// Of "abbr".
    pub const ABBR: u64 = 0x0000_0072_6262_6141;
    /// Of "acronym".
    pub const ACRONYM: u64 = 0x6d79_6e6f_7263_6171;
    /// Of "address".
    pub const ADDRESS: u64 = 0x7373_6572_6464_6171;
    /// Of "applet".
    pub const APPLET: u64 = 0x0074_656c_7070_6161;
    /// Of "area".
    pub const AREA: u64 = 0x0000_0061_6572_6141;
    /// Of "article".
    pub const ARTICLE: u64 = 0x656c_6369_7472_6171;
    /// Of "aside".
    pub const ASIDE: u64 = 0x0000_6564_6973_6151;
    /// Of "audio".
    pub const AUDIO: u64 = 0x0000_6f69_6475_6151;
    /// Of "b".
    pub const B: u64 = 0x0000_0000_0000_6211;
    /// Of "base".
    pub const BASE: u64 = 0x0000_0065_7361_6241;
    /// Of "basefont".
    pub const BASEFONT: u64 = 0x0000_004b_0000_0002;
    /// Of "bdi".
    pub const BDI: u64 = 0x0000_0000_6964_6231;
    /// Of "bdo".
    pub const BDO: u64 = 0x0000_0000_6f64_6231;
    /// Of "bgsound".
    pub const BGSOUND: u64 = 0x646e_756f_7367_6271;
    /// Of "big".
    pub const BIG: u64 = 0x0000_0000_6769_6231;
    /// Of "blink".
    pub const BLINK: u64 = 0x0000_6b6e_696c_6251;
    /// Of "blockquote".
    pub const BLOCKQUOTE: u64 = 0x0000_0031_0000_0002;
    /// Of "body".
    pub const BODY: u64 = 0x0000_0079_646f_6241;
    /// Of "br".
    pub const BR: u64 = 0x0000_0000_0072_6221;
    /// Of "button".
    pub const BUTTON: u64 = 0x006e_6f74_7475_6261;
    /// Of "canvas".
    pub const CANVAS: u64 = 0x0073_6176_6e61_6361;
    /// Of "caption".
    pub const CAPTION: u64 = 0x6e6f_6974_7061_6371;
    /// Of "center".
    pub const CENTER: u64 = 0x0072_6574_6e65_6361;
    /// Of "cite".
    pub const CITE: u64 = 0x0000_0065_7469_6341;
    /// Of "code".
    pub const CODE: u64 = 0x0000_0065_646f_6341;
    /// Of "col".
    pub const COL: u64 = 0x0000_0000_6c6f_6331;
    /// Of "colgroup".
    pub const COLGROUP: u64 = 0x0000_0013_0000_0002;
    /// Of "command".
    pub const COMMAND: u64 = 0x646e_616d_6d6f_6371;
    /// Of "content".
    pub const CONTENT: u64 = 0x746e_6574_6e6f_6371;
    /// Of "data".
    pub const DATA: u64 = 0x0000_0061_7461_6441;
    /// Of "datalist".
    pub const DATALIST: u64 = 0x0000_0015_0000_0002;
    /// Of "dd".
    pub const DD: u64 = 0x0000_0000_0064_6421;
    /// Of "del".
    pub const DEL: u64 = 0x0000_0000_6c65_6431;
    /// Of "details".
    pub const DETAILS: u64 = 0x736c_6961_7465_6471;
    /// Of "dfn".
    pub const DFN: u64 = 0x0000_0000_6e66_6431;
    /// Of "dialog".
    pub const DIALOG: u64 = 0x0067_6f6c_6169_6461;
    /// Of "dir".
    pub const DIR: u64 = 0x0000_0000_7269_6431;
    /// Of "div".
    pub const DIV: u64 = 0x0000_0000_7669_6431;
    /// Of "dl".
    pub const DL: u64 = 0x0000_0000_006c_6421;
    /// Of "dt".
    pub const DT: u64 = 0x0000_0000_0074_6421;
    /// Of "element".
    pub const ELEMENT: u64 = 0x746e_656d_656c_6571;
    /// Of "em".
    pub const EM: u64 = 0x0000_0000_006d_6521;
    /// Of "embed".
    pub const EMBED: u64 = 0x0000_6465_626d_6551;
    /// Of "fieldset".
    pub const FIELDSET: u64 = 0x0000_0002_0000_0002;
    /// Of "figcaption".
    pub const FIGCAPTION: u64 = 0x0000_0034_0000_0002;
    /// Of "figure".
    pub const FIGURE: u64 = 0x0065_7275_6769_6661;
    /// Of "font".
    pub const FONT: u64 = 0x0000_0074_6e6f_6641;
    /// Of "footer".
    pub const FOOTER: u64 = 0x0072_6574_6f6f_6661;
    /// Of "form".
    pub const FORM: u64 = 0x0000_006d_726f_6641;
    /// Of "frame".
    pub const FRAME: u64 = 0x0000_656d_6172_6651;
    /// Of "frameset".
    pub const FRAMESET: u64 = 0x0000_0052_0000_0002;
    /// Of "h1".
    pub const H1: u64 = 0x0000_0000_0031_6821;
    /// Of "h2".
    pub const H2: u64 = 0x0000_0000_0032_6821;
    /// Of "h3".
    pub const H3: u64 = 0x0000_0000_0033_6821;
    /// Of "h4".
    pub const H4: u64 = 0x0000_0000_0034_6821;
    /// Of "h5".
    pub const H5: u64 = 0x0000_0000_0035_6821;
    /// Of "h6".
    pub const H6: u64 = 0x0000_0000_0036_6821;
    /// Of "head".
    pub const HEAD: u64 = 0x0000_0064_6165_6841;
    /// Of "header".
    pub const HEADER: u64 = 0x0072_6564_6165_6861;
    /// Of "hgroup".
    pub const HGROUP: u64 = 0x0070_756f_7267_6861;
    /// Of "hr".
    pub const HR: u64 = 0x0000_0000_0072_6821;
    /// Of "html".
    pub const HTML: u64 = 0x0000_006c_6d74_6841;
    /// Of "i".
    pub const I: u64 = 0x0000_0000_0000_6911;
    /// Of "iframe".
    pub const IFRAME: u64 = 0x0065_6d61_7266_6961;
    /// Of "image".
    pub const IMAGE: u64 = 0x0000_6567_616d_6951;
    /// Of "img".
    pub const IMG: u64 = 0x0000_0000_676d_6931;
    /// Of "input".
    pub const INPUT: u64 = 0x0000_7475_706e_6951;
    /// Of "ins".
    pub const INS: u64 = 0x0000_0000_736e_6931;
    /// Of "isindex".
    pub const ISINDEX: u64 = 0x7865_646e_6973_6971;
    /// Of "kbd".
    pub const KBD: u64 = 0x0000_0000_6462_6b31;
    /// Of "keygen".
    pub const KEYGEN: u64 = 0x006e_6567_7965_6b61;
    /// Of "label".
    pub const LABEL: u64 = 0x0000_6c65_6261_6c51;
    /// Of "legend".
    pub const LEGEND: u64 = 0x0064_6e65_6765_6c61;
    /// Of "li".
    pub const LI: u64 = 0x0000_0000_0069_6c21;
    /// Of "link".
    pub const LINK: u64 = 0x0000_006b_6e69_6c41;
    /// Of "listing".
    pub const LISTING: u64 = 0x676e_6974_7369_6c71;
    /// Of "main".
    pub const MAIN: u64 = 0x0000_006e_6961_6d41;
    /// Of "map".
    pub const MAP: u64 = 0x0000_0000_7061_6d31;
    /// Of "mark".
    pub const MARK: u64 = 0x0000_006b_7261_6d41;
    /// Of "marquee".
    pub const MARQUEE: u64 = 0x6565_7571_7261_6d71;
    /// Of "math".
    pub const MATH: u64 = 0x0000_0068_7461_6d41;
    /// Of "menu".
    pub const MENU: u64 = 0x0000_0075_6e65_6d41;
    /// Of "menuitem".
    pub const MENUITEM: u64 = 0x0000_005a_0000_0002;
    /// Of "meta".
    pub const META: u64 = 0x0000_0061_7465_6d41;
    /// Of "meter".
    pub const METER: u64 = 0x0000_7265_7465_6d51;
    /// Of "multicol".
    pub const MULTICOL: u64 = 0x0000_0025_0000_0002;
    /// Of "nav".
    pub const NAV: u64 = 0x0000_0000_7661_6e31;
    /// Of "nextid".
    pub const NEXTID: u64 = 0x0064_6974_7865_6e61;
    /// Of "nobr".
    pub const NOBR: u64 = 0x0000_0072_626f_6e41;
    /// Of "noembed".
    pub const NOEMBED: u64 = 0x6465_626d_656f_6e71;
    /// Of "noframes".
    pub const NOFRAMES: u64 = 0x0000_006c_0000_0002;
    /// Of "noscript".
    pub const NOSCRIPT: u64 = 0x0000_0011_0000_0002;
    /// Of "object".
    pub const OBJECT: u64 = 0x0074_6365_6a62_6f61;
    /// Of "ol".
    pub const OL: u64 = 0x0000_0000_006c_6f21;
    /// Of "optgroup".
    pub const OPTGROUP: u64 = 0x0000_003c_0000_0002;
    /// Of "option".
    pub const OPTION: u64 = 0x006e_6f69_7470_6f61;
    /// Of "output".
    pub const OUTPUT: u64 = 0x0074_7570_7475_6f61;
    /// Of "p".
    pub const P: u64 = 0x0000_0000_0000_7011;
    /// Of "param".
    pub const PARAM: u64 = 0x0000_6d61_7261_7051;
    /// Of "picture".
    pub const PICTURE: u64 = 0x6572_7574_6369_7071;
    /// Of "plaintext".
    pub const PLAINTEXT: u64 = 0x0000_0061_0000_0002;
    /// Of "portal".
    pub const PORTAL: u64 = 0x006c_6174_726f_7061;
    /// Of "pre".
    pub const PRE: u64 = 0x0000_0000_6572_7031;
    /// Of "progress".
    pub const PROGRESS: u64 = 0x0000_006d_0000_0002;
    /// Of "q".
    pub const Q: u64 = 0x0000_0000_0000_7111;
    /// Of "rb".
    pub const RB: u64 = 0x0000_0000_0062_7221;
    /// Of "rp".
    pub const RP: u64 = 0x0000_0000_0070_7221;
    /// Of "rt".
    pub const RT: u64 = 0x0000_0000_0074_7221;
    /// Of "rtc".
    pub const RTC: u64 = 0x0000_0000_6374_7231;
    /// Of "ruby".
    pub const RUBY: u64 = 0x0000_0079_6275_7241;
    /// Of "s".
    pub const S: u64 = 0x0000_0000_0000_7311;
    /// Of "samp".
    pub const SAMP: u64 = 0x0000_0070_6d61_7341;
    /// Of "script".
    pub const SCRIPT: u64 = 0x0074_7069_7263_7361;
    /// Of "search".
    pub const SEARCH: u64 = 0x0068_6372_6165_7361;
    /// Of "section".
    pub const SECTION: u64 = 0x6e6f_6974_6365_7371;
    /// Of "select".
    pub const SELECT: u64 = 0x0074_6365_6c65_7361;
    /// Of "shadow".
    pub const SHADOW: u64 = 0x0077_6f64_6168_7361;
    /// Of "slot".
    pub const SLOT: u64 = 0x0000_0074_6f6c_7341;
    /// Of "small".
    pub const SMALL: u64 = 0x0000_6c6c_616d_7351;
    /// Of "source".
    pub const SOURCE: u64 = 0x0065_6372_756f_7361;
    /// Of "spacer".
    pub const SPACER: u64 = 0x0072_6563_6170_7361;
    /// Of "span".
    pub const SPAN: u64 = 0x0000_006e_6170_7341;
    /// Of "strike".
    pub const STRIKE: u64 = 0x0065_6b69_7274_7361;
    /// Of "strong".
    pub const STRONG: u64 = 0x0067_6e6f_7274_7361;
    /// Of "style".
    pub const STYLE: u64 = 0x0000_656c_7974_7351;
    /// Of "sub".
    pub const SUB: u64 = 0x0000_0000_6275_7331;
    /// Of "summary".
    pub const SUMMARY: u64 = 0x7972_616d_6d75_7371;
    /// Of "sup".
    pub const SUP: u64 = 0x0000_0000_7075_7331;
    /// Of "svg".
    pub const SVG: u64 = 0x0000_0000_6776_7331;
    /// Of "table".
    pub const TABLE: u64 = 0x0000_656c_6261_7451;
    /// Of "tbody".
    pub const TBODY: u64 = 0x0000_7964_6f62_7451;
    /// Of "td".
    pub const TD: u64 = 0x0000_0000_0064_7421;
    /// Of "template".
    pub const TEMPLATE: u64 = 0x0000_0005_0000_0002;
    /// Of "textarea".
    pub const TEXTAREA: u64 = 0x0000_0004_0000_0002;
    /// Of "tfoot".
    pub const TFOOT: u64 = 0x0000_746f_6f66_7451;
    /// Of "th".
    pub const TH: u64 = 0x0000_0000_0068_7421;
    /// Of "thead".
    pub const THEAD: u64 = 0x0000_6461_6568_7451;
    /// Of "time".
    pub const TIME: u64 = 0x0000_0065_6d69_7441;
    /// Of "title".
    pub const TITLE: u64 = 0x0000_656c_7469_7451;
    /// Of "tr".
    pub const TR: u64 = 0x0000_0000_0072_7421;
    /// Of "track".
    pub const TRACK: u64 = 0x0000_6b63_6172_7451;
    /// Of "tt".
    pub const TT: u64 = 0x0000_0000_0074_7421;
    /// Of "u".
    pub const U: u64 = 0x0000_0000_0000_7511;
    /// Of "ul".
    pub const UL: u64 = 0x0000_0000_006c_7521;
    /// Of "var".
    pub const VAR: u64 = 0x0000_0000_7261_7631;
    /// Of "video".
    pub const VIDEO: u64 = 0x0000_6f65_6469_7651;
    /// Of "wbr".
    pub const WBR: u64 = 0x0000_0000_7262_7731;
    /// Of "xmp".
    pub const XMP: u64 = 0x0000_0000_706d_7831;
    /// Of "as".
    pub const AS: u64 = 0x0000_0000_0073_6121;
    /// Of "break".
    pub const BREAK: u64 = 0x0000_6b61_6572_6251;
    /// Of "const".
    pub const CONST: u64 = 0x0000_7473_6e6f_6351;
    /// Of "continue".
    pub const CONTINUE: u64 = 0x0000_0038_0000_0002;
    /// Of "crate".
    pub const CRATE: u64 = 0x0000_6574_6172_6351;
    /// Of "else".
    pub const ELSE: u64 = 0x0000_0065_736c_6541;
    /// Of "enum".
    pub const ENUM: u64 = 0x0000_006d_756e_6541;
    /// Of "extern".
    pub const EXTERN: u64 = 0x006e_7265_7478_6561;
    /// Of "false".
    pub const FALSE: u64 = 0x0000_6573_6c61_6651;
    /// Of "fn".
    pub const FN: u64 = 0x0000_0000_006e_6621;
    /// Of "for".
    pub const FOR: u64 = 0x0000_0000_726f_6631;
    /// Of "if".
    pub const IF: u64 = 0x0000_0000_0066_6921;
    /// Of "impl".
    pub const IMPL: u64 = 0x0000_006c_706d_6941;
    /// Of "in".
    pub const IN: u64 = 0x0000_0000_006e_6921;
    /// Of "let".
    pub const LET: u64 = 0x0000_0000_7465_6c31;
    /// Of "loop".
    pub const LOOP: u64 = 0x0000_0070_6f6f_6c41;
    /// Of "match".
    pub const MATCH: u64 = 0x0000_6863_7461_6d51;
    /// Of "mod".
    pub const MOD: u64 = 0x0000_0000_646f_6d31;
    /// Of "move".
    pub const MOVE: u64 = 0x0000_0065_766f_6d41;
    /// Of "mut".
    pub const MUT: u64 = 0x0000_0000_7475_6d31;
    /// Of "pub".
    pub const PUB: u64 = 0x0000_0000_6275_7031;
    /// Of "ref".
    pub const REF: u64 = 0x0000_0000_6665_7231;
    /// Of "return".
    pub const RETURN: u64 = 0x006e_7275_7465_7261;
    /// Of "self".
    pub const SELF: u64 = 0x0000_0066_6c65_7341;
    /// Of "static".
    pub const STATIC: u64 = 0x0063_6974_6174_7361;
    /// Of "struct".
    pub const STRUCT: u64 = 0x0074_6375_7274_7361;
    /// Of "super".
    pub const SUPER: u64 = 0x0000_7265_7075_7351;
    /// Of "trait".
    pub const TRAIT: u64 = 0x0000_7469_6172_7451;
    /// Of "true".
    pub const TRUE: u64 = 0x0000_0065_7572_7441;
    /// Of "type".
    pub const TYPE: u64 = 0x0000_0065_7079_7441;
    /// Of "unsafe".
    pub const UNSAFE: u64 = 0x0065_6661_736e_7561;
    /// Of "use".
    pub const USE: u64 = 0x0000_0000_6573_7531;
    /// Of "where".
    pub const WHERE: u64 = 0x0000_6572_6568_7751;
    /// Of "while".
    pub const WHILE: u64 = 0x0000_656c_6968_7751;
    /// Of "async".
    pub const ASYNC: u64 = 0x0000_636e_7973_6151;
    /// Of "await".
    pub const AWAIT: u64 = 0x0000_7469_6177_6151;
    /// Of "dyn".
    pub const DYN: u64 = 0x0000_0000_6e79_6431;
    /// Of "abstract".
    pub const ABSTRACT: u64 = 0x0000_0023_0000_0002;
    /// Of "become".
    pub const BECOME: u64 = 0x0065_6d6f_6365_6261;
    /// Of "box".
    pub const BOX: u64 = 0x0000_0000_786f_6231;
    /// Of "do".
    pub const DO: u64 = 0x0000_0000_006f_6421;
    /// Of "final".
    pub const FINAL: u64 = 0x0000_6c61_6e69_6651;
    /// Of "macro".
    pub const MACRO: u64 = 0x0000_6f72_6361_6d51;
    /// Of "override".
    pub const OVERRIDE: u64 = 0x0000_0041_0000_0002;
    /// Of "priv".
    pub const PRIV: u64 = 0x0000_0076_6972_7041;
    /// Of "typeof".
    pub const TYPEOF: u64 = 0x0066_6f65_7079_7461;
    /// Of "unsized".
    pub const UNSIZED: u64 = 0x6465_7a69_736e_7571;
    /// Of "virtual".
    pub const VIRTUAL: u64 = 0x6c61_7574_7269_7671;
    /// Of "yield".
    pub const YIELD: u64 = 0x0000_646c_6569_7951;
    /// Of "try".
    pub const TRY: u64 = 0x0000_0000_7972_7431;
    /// Of "union".
    pub const UNION: u64 = 0x0000_6e6f_696e_7551;
    /// Of "auto".
    pub const AUTO: u64 = 0x0000_006f_7475_6141;
    /// Of "case".
    pub const CASE: u64 = 0x0000_0065_7361_6341;
    /// Of "char".
    pub const CHAR: u64 = 0x0000_0072_6168_6341;
    /// Of "default".
    pub const DEFAULT: u64 = 0x746c_7561_6665_6471;
    /// Of "double".
    pub const DOUBLE: u64 = 0x0065_6c62_756f_6461;
    /// Of "float".
    pub const FLOAT: u64 = 0x0000_7461_6f6c_6651;
    /// Of "goto".
    pub const GOTO: u64 = 0x0000_006f_746f_6741;
    /// Of "inline".
    pub const INLINE: u64 = 0x0065_6e69_6c6e_6961;
    /// Of "int".
    pub const INT: u64 = 0x0000_0000_746e_6931;
    /// Of "long".
    pub const LONG: u64 = 0x0000_0067_6e6f_6c41;
    /// Of "register".
    pub const REGISTER: u64 = 0x0000_0036_0000_0002;
    /// Of "restrict".
    pub const RESTRICT: u64 = 0x0000_002f_0000_0002;
    /// Of "short".
    pub const SHORT: u64 = 0x0000_7472_6f68_7351;
    /// Of "signed".
    pub const SIGNED: u64 = 0x0064_656e_6769_7361;
    /// Of "sizeof".
    pub const SIZEOF: u64 = 0x0066_6f65_7a69_7361;
    /// Of "switch".
    pub const SWITCH: u64 = 0x0068_6374_6977_7361;
    /// Of "typedef".
    pub const TYPEDEF: u64 = 0x6665_6465_7079_7471;
    /// Of "unsigned".
    pub const UNSIGNED: u64 = 0x0000_0040_0000_0002;
    /// Of "void".
    pub const VOID: u64 = 0x0000_0064_696f_7641;
    /// Of "volatile".
    pub const VOLATILE: u64 = 0x0000_0021_0000_0002;
    /// Of "alignas".
    pub const ALIGNAS: u64 = 0x7361_6e67_696c_6171;
    /// Of "alignof".
    pub const ALIGNOF: u64 = 0x666f_6e67_696c_6171;
    /// Of "bool".
    pub const BOOL: u64 = 0x0000_006c_6f6f_6241;
    /// Of "constexpr".
    pub const CONSTEXPR: u64 = 0x0000_0014_0000_0002;
    /// Of "nullptr".
    pub const NULLPTR: u64 = 0x7274_706c_6c75_6e71;
    /// Of "static_assert".
    pub const STATIC_ASSERT: u64 = 0x0000_005f_0000_0002;
    /// Of "thread_local".
    pub const THREAD_LOCAL: u64 = 0x0000_002a_0000_0002;
    /// Of "typeof_unqual".
    pub const TYPEOF_UNQUAL: u64 = 0x0000_0060_0000_0002;
    /// Of "assert".
    pub const ASSERT: u64 = 0x0074_7265_7373_6161;
    /// Of "boolean".
    pub const BOOLEAN: u64 = 0x6e61_656c_6f6f_6271;
    /// Of "byte".
    pub const BYTE: u64 = 0x0000_0065_7479_6241;
    /// Of "catch".
    pub const CATCH: u64 = 0x0000_6863_7461_6351;
    /// Of "class".
    pub const CLASS: u64 = 0x0000_7373_616c_6351;
    /// Of "extends".
    pub const EXTENDS: u64 = 0x7364_6e65_7478_6571;
    /// Of "finally".
    pub const FINALLY: u64 = 0x796c_6c61_6e69_6671;
    /// Of "implements".
    pub const IMPLEMENTS: u64 = 0x0000_000b_0000_0002;
    /// Of "import".
    pub const IMPORT: u64 = 0x0074_726f_706d_6961;
    /// Of "instanceof".
    pub const INSTANCEOF: u64 = 0x0000_0049_0000_0002;
    /// Of "interface".
    pub const INTERFACE: u64 = 0x0000_004c_0000_0002;
    /// Of "native".
    pub const NATIVE: u64 = 0x0065_7669_7461_6e61;
    /// Of "new".
    pub const NEW: u64 = 0x0000_0000_7765_6e31;
    /// Of "package".
    pub const PACKAGE: u64 = 0x6567_616b_6361_7071;
    /// Of "private".
    pub const PRIVATE: u64 = 0x6574_6176_6972_7071;
    /// Of "protected".
    pub const PROTECTED: u64 = 0x0000_0039_0000_0002;
    /// Of "public".
    pub const PUBLIC: u64 = 0x0063_696c_6275_7061;
    /// Of "strictfp".
    pub const STRICTFP: u64 = 0x0000_0009_0000_0002;
    /// Of "synchronized".
    pub const SYNCHRONIZED: u64 = 0x0000_006a_0000_0002;
    /// Of "this".
    pub const THIS: u64 = 0x0000_0073_6968_7441;
    /// Of "throw".
    pub const THROW: u64 = 0x0000_776f_7268_7451;
    /// Of "throws".
    pub const THROWS: u64 = 0x0073_776f_7268_7461;
    /// Of "transient".
    pub const TRANSIENT: u64 = 0x0000_000a_0000_0002;
    /// Of "exports".
    pub const EXPORTS: u64 = 0x7374_726f_7078_6571;
    /// Of "module".
    pub const MODULE: u64 = 0x0065_6c75_646f_6d61;
    /// Of "opens".
    pub const OPENS: u64 = 0x0000_736e_6570_6f51;
    /// Of "permits".
    pub const PERMITS: u64 = 0x7374_696d_7265_7071;
    /// Of "provides".
    pub const PROVIDES: u64 = 0x0000_003e_0000_0002;
    /// Of "record".
    pub const RECORD: u64 = 0x0064_726f_6365_7261;
    /// Of "requires".
    pub const REQUIRES: u64 = 0x0000_0029_0000_0002;
    /// Of "sealed".
    pub const SEALED: u64 = 0x0064_656c_6165_7361;
    /// Of "transitive".
    pub const TRANSITIVE: u64 = 0x0000_000c_0000_0002;
    /// Of "when".
    pub const WHEN: u64 = 0x0000_006e_6568_7741;
    /// Of "with".
    pub const WITH: u64 = 0x0000_0068_7469_7741;
    /// Of "arguments".
    pub const ARGUMENTS: u64 = 0x0000_0071_0000_0002;
    /// Of "debugger".
    pub const DEBUGGER: u64 = 0x0000_003d_0000_0002;
    /// Of "delete".
    pub const DELETE: u64 = 0x0065_7465_6c65_6461;
    /// Of "eval".
    pub const EVAL: u64 = 0x0000_006c_6176_6541;
    /// Of "export".
    pub const EXPORT: u64 = 0x0074_726f_7078_6561;
    /// Of "function".
    pub const FUNCTION: u64 = 0x0000_001d_0000_0002;
    /// Of "get".
    pub const GET: u64 = 0x0000_0000_7465_6731;
    /// Of "null".
    pub const NULL: u64 = 0x0000_006c_6c75_6e41;
    /// Of "of".
    pub const OF: u64 = 0x0000_0000_0066_6f21;
    /// Of "set".
    pub const SET: u64 = 0x0000_0000_7465_7331;
    /// Of "undefined".
    pub const UNDEFINED: u64 = 0x0000_0068_0000_0002;
    /// Of "and".
    pub const AND: u64 = 0x0000_0000_646e_6131;
    /// Of "def".
    pub const DEF: u64 = 0x0000_0000_6665_6431;
    /// Of "elif".
    pub const ELIF: u64 = 0x0000_0066_696c_6541;
    /// Of "except".
    pub const EXCEPT: u64 = 0x0074_7065_6378_6561;
    /// Of "from".
    pub const FROM: u64 = 0x0000_006d_6f72_6641;
    /// Of "global".
    pub const GLOBAL: u64 = 0x006c_6162_6f6c_6761;
    /// Of "is".
    pub const IS: u64 = 0x0000_0000_0073_6921;
    /// Of "lambda".
    pub const LAMBDA: u64 = 0x0061_6462_6d61_6c61;
    /// Of "nonlocal".
    pub const NONLOCAL: u64 = 0x0000_0056_0000_0002;
    /// Of "not".
    pub const NOT: u64 = 0x0000_0000_746f_6e31;
    /// Of "or".
    pub const OR: u64 = 0x0000_0000_0072_6f21;
    /// Of "pass".
    pub const PASS: u64 = 0x0000_0073_7361_7041;
    /// Of "raise".
    pub const RAISE: u64 = 0x0000_6573_6961_7251;
    /// Of "None".
    pub const NONE: u64 = 0x0000_0065_6e6f_4e41;
    /// Of "True".
    pub const PYTHON_TRUE: u64 = 0x0000_0065_7572_5441;
    /// Of "False".
    pub const PYTHON_FALSE: u64 = 0x0000_6573_6c61_4651;
    /// Of "align-content".
    pub const ALIGN_CONTENT: u64 = 0x0000_0003_0000_0002;
    /// Of "align-items".
    pub const ALIGN_ITEMS: u64 = 0x0000_001b_0000_0002;
    /// Of "animation".
    pub const ANIMATION: u64 = 0x0000_0017_0000_0002;
    /// Of "appearance".
    pub const APPEARANCE: u64 = 0x0000_0033_0000_0002;
    /// Of "aspect-ratio".
    pub const ASPECT_RATIO: u64 = 0x0000_0018_0000_0002;
    /// Of "background".
    pub const BACKGROUND: u64 = 0x0000_0022_0000_0002;
    /// Of "background-color".
    pub const BACKGROUND_COLOR: u64 = 0x0000_0047_0000_0002;
    /// Of "background-image".
    pub const BACKGROUND_IMAGE: u64 = 0x0000_0026_0000_0002;
    /// Of "border".
    pub const BORDER: u64 = 0x0072_6564_726f_6261;
    /// Of "border-radius".
    pub const BORDER_RADIUS: u64 = 0x0000_0035_0000_0002;
    /// Of "border-spacing".
    pub const BORDER_SPACING: u64 = 0x0000_0037_0000_0002;
    /// Of "box-shadow".
    pub const BOX_SHADOW: u64 = 0x0000_005e_0000_0002;
    /// Of "box-sizing".
    pub const BOX_SIZING: u64 = 0x0000_0067_0000_0002;
    /// Of "caret-color".
    pub const CARET_COLOR: u64 = 0x0000_004f_0000_0002;
    /// Of "clear".
    pub const CLEAR: u64 = 0x0000_7261_656c_6351;
    /// Of "clip-path".
    pub const CLIP_PATH: u64 = 0x0000_0057_0000_0002;
    /// Of "color".
    pub const COLOR: u64 = 0x0000_726f_6c6f_6351;
    /// Of "column-count".
    pub const COLUMN_COUNT: u64 = 0x0000_0050_0000_0002;
    /// Of "column-gap".
    pub const COLUMN_GAP: u64 = 0x0000_0063_0000_0002;
    /// Of "column-rule".
    pub const COLUMN_RULE: u64 = 0x0000_0048_0000_0002;
    /// Of "columns".
    pub const COLUMNS: u64 = 0x736e_6d75_6c6f_6371;
    /// Of "contain".
    pub const CONTAIN: u64 = 0x6e69_6174_6e6f_6371;
    /// Of "counter-increment".
    pub const COUNTER_INCREMENT: u64 = 0x0000_004d_0000_0002;
    /// Of "counter-reset".
    pub const COUNTER_RESET: u64 = 0x0000_003b_0000_0002;
    /// Of "cursor".
    pub const CURSOR: u64 = 0x0072_6f73_7275_6361;
    /// Of "direction".
    pub const DIRECTION: u64 = 0x0000_003a_0000_0002;
    /// Of "display".
    pub const DISPLAY: u64 = 0x7961_6c70_7369_6471;
    /// Of "empty-cells".
    pub const EMPTY_CELLS: u64 = 0x0000_0006_0000_0002;
    /// Of "filter".
    pub const FILTER: u64 = 0x0072_6574_6c69_6661;
    /// Of "flex".
    pub const FLEX: u64 = 0x0000_0078_656c_6641;
    /// Of "flex-basis".
    pub const FLEX_BASIS: u64 = 0x0000_004e_0000_0002;
    /// Of "flex-direction".
    pub const FLEX_DIRECTION: u64 = 0x0000_0010_0000_0002;
    /// Of "flex-flow".
    pub const FLEX_FLOW: u64 = 0x0000_0007_0000_0002;
    /// Of "flex-grow".
    pub const FLEX_GROW: u64 = 0x0000_002b_0000_0002;
    /// Of "flex-shrink".
    pub const FLEX_SHRINK: u64 = 0x0000_006f_0000_0002;
    /// Of "flex-wrap".
    pub const FLEX_WRAP: u64 = 0x0000_0000_0000_0002;
    /// Of "font-family".
    pub const FONT_FAMILY: u64 = 0x0000_005d_0000_0002;
    /// Of "font-size".
    pub const FONT_SIZE: u64 = 0x0000_0058_0000_0002;
    /// Of "font-style".
    pub const FONT_STYLE: u64 = 0x0000_006e_0000_0002;
    /// Of "font-variant".
    pub const FONT_VARIANT: u64 = 0x0000_0066_0000_0002;
    /// Of "font-weight".
    pub const FONT_WEIGHT: u64 = 0x0000_0008_0000_0002;
    /// Of "gap".
    pub const GAP: u64 = 0x0000_0000_7061_6731;
    /// Of "grid".
    pub const GRID: u64 = 0x0000_0064_6972_6741;
    /// Of "grid-area".
    pub const GRID_AREA: u64 = 0x0000_002d_0000_0002;
    /// Of "grid-column".
    pub const GRID_COLUMN: u64 = 0x0000_0043_0000_0002;
    /// Of "grid-row".
    pub const GRID_ROW: u64 = 0x0000_0001_0000_0002;
    /// Of "grid-template".
    pub const GRID_TEMPLATE: u64 = 0x0000_002e_0000_0002;
    /// Of "height".
    pub const HEIGHT: u64 = 0x0074_6867_6965_6861;
    /// Of "hyphens".
    pub const HYPHENS: u64 = 0x736e_6568_7079_6871;
    /// Of "isolation".
    pub const ISOLATION: u64 = 0x0000_0072_0000_0002;
    /// Of "justify-content".
    pub const JUSTIFY_CONTENT: u64 = 0x0000_0051_0000_0002;
    /// Of "justify-items".
    pub const JUSTIFY_ITEMS: u64 = 0x0000_0055_0000_0002;
    /// Of "left".
    pub const LEFT: u64 = 0x0000_0074_6665_6c41;
    /// Of "letter-spacing".
    pub const LETTER_SPACING: u64 = 0x0000_003f_0000_0002;
    /// Of "line-height".
    pub const LINE_HEIGHT: u64 = 0x0000_001e_0000_0002;
    /// Of "list-style".
    pub const LIST_STYLE: u64 = 0x0000_000d_0000_0002;
    /// Of "margin".
    pub const MARGIN: u64 = 0x006e_6967_7261_6d61;
    /// Of "max-height".
    pub const MAX_HEIGHT: u64 = 0x0000_004a_0000_0002;
    /// Of "max-width".
    pub const MAX_WIDTH: u64 = 0x0000_0064_0000_0002;
    /// Of "min-height".
    pub const MIN_HEIGHT: u64 = 0x0000_0070_0000_0002;
    /// Of "min-width".
    pub const MIN_WIDTH: u64 = 0x0000_002c_0000_0002;
    /// Of "mix-blend-mode".
    pub const MIX_BLEND_MODE: u64 = 0x0000_0012_0000_0002;
    /// Of "object-fit".
    pub const OBJECT_FIT: u64 = 0x0000_0062_0000_0002;
    /// Of "object-position".
    pub const OBJECT_POSITION: u64 = 0x0000_0016_0000_0002;
    /// Of "opacity".
    pub const OPACITY: u64 = 0x7974_6963_6170_6f71;
    /// Of "order".
    pub const ORDER: u64 = 0x0000_7265_6472_6f51;
    /// Of "orphans".
    pub const ORPHANS: u64 = 0x736e_6168_7072_6f71;
    /// Of "outline".
    pub const OUTLINE: u64 = 0x656e_696c_7475_6f71;
    /// Of "overflow".
    pub const OVERFLOW: u64 = 0x0000_005b_0000_0002;
    /// Of "padding".
    pub const PADDING: u64 = 0x676e_6964_6461_7071;
    /// Of "page".
    pub const PAGE: u64 = 0x0000_0065_6761_7041;
    /// Of "perspective".
    pub const PERSPECTIVE: u64 = 0x0000_005c_0000_0002;
    /// Of "place-content".
    pub const PLACE_CONTENT: u64 = 0x0000_0042_0000_0002;
    /// Of "pointer-events".
    pub const POINTER_EVENTS: u64 = 0x0000_001a_0000_0002;
    /// Of "position".
    pub const POSITION: u64 = 0x0000_0028_0000_0002;
    /// Of "quotes".
    pub const QUOTES: u64 = 0x0073_6574_6f75_7161;
    /// Of "resize".
    pub const RESIZE: u64 = 0x0065_7a69_7365_7261;
    /// Of "right".
    pub const RIGHT: u64 = 0x0000_7468_6769_7251;
    /// Of "rotate".
    pub const ROTATE: u64 = 0x0065_7461_746f_7261;
    /// Of "row-gap".
    pub const ROW_GAP: u64 = 0x7061_672d_776f_7271;
    /// Of "scale".
    pub const SCALE: u64 = 0x0000_656c_6163_7351;
    /// Of "scroll-behavior".
    pub const SCROLL_BEHAVIOR: u64 = 0x0000_0069_0000_0002;
    /// Of "tab-size".
    pub const TAB_SIZE: u64 = 0x0000_0032_0000_0002;
    /// Of "table-layout".
    pub const TABLE_LAYOUT: u64 = 0x0000_001c_0000_0002;
    /// Of "text-align".
    pub const TEXT_ALIGN: u64 = 0x0000_000f_0000_0002;
    /// Of "text-decoration".
    pub const TEXT_DECORATION: u64 = 0x0000_0059_0000_0002;
    /// Of "text-indent".
    pub const TEXT_INDENT: u64 = 0x0000_0046_0000_0002;
    /// Of "text-overflow".
    pub const TEXT_OVERFLOW: u64 = 0x0000_000e_0000_0002;
    /// Of "text-shadow".
    pub const TEXT_SHADOW: u64 = 0x0000_001f_0000_0002;
    /// Of "text-transform".
    pub const TEXT_TRANSFORM: u64 = 0x0000_0030_0000_0002;
    /// Of "top".
    pub const TOP: u64 = 0x0000_0000_706f_7431;
    /// Of "transform".
    pub const TRANSFORM: u64 = 0x0000_006b_0000_0002;
    /// Of "transition".
    pub const TRANSITION: u64 = 0x0000_0027_0000_0002;
    /// Of "translate".
    pub const TRANSLATE: u64 = 0x0000_0019_0000_0002;
    /// Of "unicode-bidi".
    pub const UNICODE_BIDI: u64 = 0x0000_0054_0000_0002;
    /// Of "vertical-align".
    pub const VERTICAL_ALIGN: u64 = 0x0000_0044_0000_0002;
    /// Of "visibility".
    pub const VISIBILITY: u64 = 0x0000_0053_0000_0002;
    /// Of "white-space".
    pub const WHITE_SPACE: u64 = 0x0000_0020_0000_0002;
    /// Of "widows".
    pub const WIDOWS: u64 = 0x0073_776f_6469_7761;
    /// Of "width".
    pub const WIDTH: u64 = 0x0000_6874_6469_7751;
    /// Of "word-break".
    pub const WORD_BREAK: u64 = 0x0000_0024_0000_0002;
    /// Of "word-spacing".
    pub const WORD_SPACING: u64 = 0x0000_0045_0000_0002;
    /// Of "writing-mode".
    pub const WRITING_MODE: u64 = 0x0000_0065_0000_0002;
    /// Of "z-index".
    pub const Z_INDEX: u64 = 0x7865_646e_692d_7a71;
}

impl StaticAtomSet for Names {
    ghost use Rattle.std.proofs.Common.{lit<, refl};
    ghost use Rattle.std.specs.Prelude.{[], ◌∷◌, codes};

    ghost tables = { record { key = 0; disps = (0, 113) ∷ (4, 98) ∷ (0, 2) ∷ (5, 28) ∷ (0, 3) ∷ (1, 12) ∷ (0, 14) ∷ (0, 0) ∷ (1, 1) ∷ (7, 5) ∷ (0, 109) ∷ (9, 111) ∷ (0, 19) ∷ (1, 22) ∷ (0, 18) ∷ (21, 79) ∷ (2, 0) ∷ (0, 6) ∷ (22, 93) ∷ (232, 103) ∷ (1, 102) ∷ (11, 56) ∷ (94, 55) ∷ []; atoms = codes "flex-wrap" ∷ codes "grid-row" ∷ codes "fieldset" ∷ codes "align-content" ∷ codes "textarea" ∷ codes "template" ∷ codes "empty-cells" ∷ codes "flex-flow" ∷ codes "font-weight" ∷ codes "strictfp" ∷ codes "transient" ∷ codes "implements" ∷ codes "transitive" ∷ codes "list-style" ∷ codes "text-overflow" ∷ codes "text-align" ∷ codes "flex-direction" ∷ codes "noscript" ∷ codes "mix-blend-mode" ∷ codes "colgroup" ∷ codes "constexpr" ∷ codes "datalist" ∷ codes "object-position" ∷ codes "animation" ∷ codes "aspect-ratio" ∷ codes "translate" ∷ codes "pointer-events" ∷ codes "align-items" ∷ codes "table-layout" ∷ codes "function" ∷ codes "line-height" ∷ codes "text-shadow" ∷ codes "white-space" ∷ codes "volatile" ∷ codes "background" ∷ codes "abstract" ∷ codes "word-break" ∷ codes "multicol" ∷ codes "background-image" ∷ codes "transition" ∷ codes "position" ∷ codes "requires" ∷ codes "thread_local" ∷ codes "flex-grow" ∷ codes "min-width" ∷ codes "grid-area" ∷ codes "grid-template" ∷ codes "restrict" ∷ codes "text-transform" ∷ codes "blockquote" ∷ codes "tab-size" ∷ codes "appearance" ∷ codes "figcaption" ∷ codes "border-radius" ∷ codes "register" ∷ codes "border-spacing" ∷ codes "continue" ∷ codes "protected" ∷ codes "direction" ∷ codes "counter-reset" ∷ codes "optgroup" ∷ codes "debugger" ∷ codes "provides" ∷ codes "letter-spacing" ∷ codes "unsigned" ∷ codes "override" ∷ codes "place-content" ∷ codes "grid-column" ∷ codes "vertical-align" ∷ codes "word-spacing" ∷ codes "text-indent" ∷ codes "background-color" ∷ codes "column-rule" ∷ codes "instanceof" ∷ codes "max-height" ∷ codes "basefont" ∷ codes "interface" ∷ codes "counter-increment" ∷ codes "flex-basis" ∷ codes "caret-color" ∷ codes "column-count" ∷ codes "justify-content" ∷ codes "frameset" ∷ codes "visibility" ∷ codes "unicode-bidi" ∷ codes "justify-items" ∷ codes "nonlocal" ∷ codes "clip-path" ∷ codes "font-size" ∷ codes "text-decoration" ∷ codes "menuitem" ∷ codes "overflow" ∷ codes "perspective" ∷ codes "font-family" ∷ codes "box-shadow" ∷ codes "static_assert" ∷ codes "typeof_unqual" ∷ codes "plaintext" ∷ codes "object-fit" ∷ codes "column-gap" ∷ codes "max-width" ∷ codes "writing-mode" ∷ codes "font-variant" ∷ codes "box-sizing" ∷ codes "undefined" ∷ codes "scroll-behavior" ∷ codes "synchronized" ∷ codes "transform" ∷ codes "noframes" ∷ codes "progress" ∷ codes "font-style" ∷ codes "flex-shrink" ∷ codes "min-height" ∷ codes "arguments" ∷ codes "isolation" ∷ []; hashes = 0xfe68_4350_3634_3759 ∷ 0x9a61_39ec_c175_ff4a ∷ 0x3c07_4ae2_c1c9_f84f ∷ 0x1883_1d8c_109b_138c ∷ 0x0ccd_a95b_919a_5e9c ∷ 0xf50d_b3d0_c04b_0e2c ∷ 0xa682_f791_8714_d0f9 ∷ 0x6f32_fd6f_44a2_24a8 ∷ 0x782e_2fdb_3d02_ec0c ∷ 0x8d4c_82bf_3e63_79c1 ∷ 0xf127_17fb_ace3_34ce ∷ 0x18af_81e6_c783_203d ∷ 0x30a3_50ed_f21f_bd95 ∷ 0x741c_0cbc_3e67_6507 ∷ 0x666b_cc71_ca3f_a35f ∷ 0x8814_cb7b_c337_898f ∷ 0xb88a_0b50_9be2_0985 ∷ 0x940c_3a08_76e3_93f7 ∷ 0x65ac_33ac_c0f5_072e ∷ 0xc212_cb28_033e_5d8c ∷ 0xd1f1_3bfa_c0ba_e710 ∷ 0x6267_802a_1b82_8b49 ∷ 0x5e6f_8769_d3a6_74db ∷ 0x93b7_4ffd_6c9e_2801 ∷ 0x4d55_2050_cdf8_22a4 ∷ 0x6dd7_2380_2a74_826c ∷ 0xcc5b_fbc4_343e_7afe ∷ 0x2a48_572a_26f3_ec3e ∷ 0xf43e_6b72_6a06_bf33 ∷ 0x76ed_ed8b_a08f_57c6 ∷ 0x8285_5000_0a8b_45c8 ∷ 0x2207_06d1_520c_f5e6 ∷ 0xfcd0_7905_5437_c321 ∷ 0xe19b_9780_ab67_2419 ∷ 0x8636_cbe6_0186_a80f ∷ 0xaf44_208f_5457_9fda ∷ 0xd208_2fe3_f4f9_24ec ∷ 0xbda9_7b68_dd35_5189 ∷ 0xa46d_2f7c_7265_7d1b ∷ 0xb8ba_4106_c37b_9f6d ∷ 0xd271_3b88_765f_54b7 ∷ 0x8b4d_df43_9650_ac27 ∷ 0x13a6_d044_0916_f14e ∷ 0x751c_e3ac_0c22_d403 ∷ 0x9c2e_4453_fb4d_76b9 ∷ 0xf691_1815_f58d_ef21 ∷ 0x022a_d0f8_9333_f086 ∷ 0xf763_1751_8fcb_7f38 ∷ 0xccef_e87f_6edb_61cb ∷ 0xfe8e_a144_fd65_76c8 ∷ 0xf5cc_e08f_8516_979c ∷ 0xdfdd_8e9f_dbbb_8456 ∷ 0x5083_f794_76e2_d47d ∷ 0x5e2c_512e_67f5_c0b3 ∷ 0xef4b_b39d_7b78_cf5b ∷ 0x77c4_7c1f_8046_79b9 ∷ 0x1fcf_df3e_f0b8_b00f ∷ 0xd120_2927_0374_5879 ∷ 0xed3b_cc25_7aa6_f2ee ∷ 0xef2f_c60d_10f2_c7b7 ∷ 0xfdbf_18e5_3c86_bc1f ∷ 0x0fbb_a358_d938_a951 ∷ 0xc866_3707_f6d7_29d7 ∷ 0x9dbb_1d45_9a93_a7c1 ∷ 0x9a3f_1201_106b_eb95 ∷ 0x9f70_a38a_1ae2_c438 ∷ 0x3f99_4c96_27c0_6b20 ∷ 0xee8d_cada_783d_b9f3 ∷ 0x7e6b_abe7_be44_2a68 ∷ 0x16fb_ebf1_0ec4_5dd4 ∷ 0x5e28_cef6_f93f_f14f ∷ 0x0763_6269_3b3f_ea97 ∷ 0x4b97_825c_cd1d_6306 ∷ 0xfb96_7309_ceb3_3682 ∷ 0x6a18_74eb_1982_a8b2 ∷ 0x0d32_8539_a71a_e119 ∷ 0x71a4_c2ac_d2c2_af84 ∷ 0xc001_68df_5250_8a81 ∷ 0xa5db_cc9b_a532_0347 ∷ 0x895d_64b4_a5b9_abce ∷ 0xb500_fee8_afc8_178f ∷ 0x1315_46e1_572d_6999 ∷ 0xfc27_868b_210f_2a88 ∷ 0x2363_4134_9d38_f6dd ∷ 0xc263_0c5f_84a2_e2cb ∷ 0x7428_a76c_6f77_3a87 ∷ 0x32e0_4be9_b96c_4a0b ∷ 0x4810_0410_e2b1_2d21 ∷ 0xae6c_be88_5c03_1eff ∷ 0xa651_9ffa_cd5d_81cc ∷ 0x3693_e59f_4a9f_835a ∷ 0xbcfa_a3b8_1d89_99fc ∷ 0x3f3c_1411_1395_418f ∷ 0x95e7_d63a_6335_dfd9 ∷ 0x42b2_e175_4378_5e7d ∷ 0x653c_61d0_95a5_483d ∷ 0x0715_d34b_7770_9866 ∷ 0x2f41_2c4b_c5a5_ad22 ∷ 0xa23d_e243_484a_94c1 ∷ 0xfb09_4175_46e2_6a33 ∷ 0x3e4c_e9e9_a2f8_2e43 ∷ 0xe9e4_a071_0620_52ac ∷ 0xa1ea_34e4_794b_7176 ∷ 0x0a54_aa83_01d9_f4cb ∷ 0xb5e2_3a80_b706_ba90 ∷ 0xb27f_f766_db36_8b8a ∷ 0x9451_2ef3_9539_d8d5 ∷ 0xe72f_91fb_5ffe_b5bf ∷ 0xc422_eb9e_796d_2103 ∷ 0x0f7f_9652_4fd9_17e0 ∷ 0x3c14_ad14_9a98_dfcb ∷ 0x9e08_68cf_1ae8_5c0c ∷ 0x7693_8d0c_e1e5_047a ∷ 0x79ea_04ec_8998_915c ∷ 0xb4be_7cb5_6aa9_a3f0 ∷ [] } };

    ghost usable = { record { displaced = lit< tt; listed = lit< tt; few_disps = lit< tt; few_atoms = lit< tt; hashed = refl } };

    fn get() -> &'static PhfStrSet {
        &NAMES_TABLES
    }
}

/// The names, one a line.
#[cfg(test)]
#[rattlefmt::skip]
static NAMES_LIST: &str = "a\nabbr\nacronym\naddress\napplet\narea\narticle\naside\naudio\nb\nbase\nbasefont\nbdi\nbdo\nbgsound\nbig\nblink\nblockquote\nbody\nbr\nbutton\ncanvas\ncaption\ncenter\ncite\ncode\ncol\ncolgroup\ncommand\ncontent\ndata\ndatalist\ndd\ndel\ndetails\ndfn\ndialog\ndir\ndiv\ndl\ndt\nelement\nem\nembed\nfieldset\nfigcaption\nfigure\nfont\nfooter\nform\nframe\nframeset\nh1\nh2\nh3\nh4\nh5\nh6\nhead\nheader\nhgroup\nhr\nhtml\ni\niframe\nimage\nimg\ninput\nins\nisindex\nkbd\nkeygen\nlabel\nlegend\nli\nlink\nlisting\nmain\nmap\nmark\nmarquee\nmath\nmenu\nmenuitem\nmeta\nmeter\nmulticol\nnav\nnextid\nnobr\nnoembed\nnoframes\nnoscript\nobject\nol\noptgroup\noption\noutput\np\nparam\npicture\nplaintext\nportal\npre\nprogress\nq\nrb\nrp\nrt\nrtc\nruby\ns\nsamp\nscript\nsearch\nsection\nselect\nshadow\nslot\nsmall\nsource\nspacer\nspan\nstrike\nstrong\nstyle\nsub\nsummary\nsup\nsvg\ntable\ntbody\ntd\ntemplate\ntextarea\ntfoot\nth\nthead\ntime\ntitle\ntr\ntrack\ntt\nu\nul\nvar\nvideo\nwbr\nxmp\nas\nbreak\nconst\ncontinue\ncrate\nelse\nenum\nextern\nfalse\nfn\nfor\nif\nimpl\nin\nlet\nloop\nmatch\nmod\nmove\nmut\npub\nref\nreturn\nself\nstatic\nstruct\nsuper\ntrait\ntrue\ntype\nunsafe\nuse\nwhere\nwhile\nasync\nawait\ndyn\nabstract\nbecome\nbox\ndo\nfinal\nmacro\noverride\npriv\ntypeof\nunsized\nvirtual\nyield\ntry\nunion\nauto\ncase\nchar\ndefault\ndouble\nfloat\ngoto\ninline\nint\nlong\nregister\nrestrict\nshort\nsigned\nsizeof\nswitch\ntypedef\nunsigned\nvoid\nvolatile\nalignas\nalignof\nbool\nconstexpr\nnullptr\nstatic_assert\nthread_local\ntypeof_unqual\nassert\nboolean\nbyte\ncatch\nclass\nextends\nfinally\nimplements\nimport\ninstanceof\ninterface\nnative\nnew\npackage\nprivate\nprotected\npublic\nstrictfp\nsynchronized\nthis\nthrow\nthrows\ntransient\nexports\nmodule\nopens\npermits\nprovides\nrecord\nrequires\nsealed\ntransitive\nwhen\nwith\narguments\ndebugger\ndelete\neval\nexport\nfunction\nget\nnull\nof\nset\nundefined\nand\ndef\nelif\nexcept\nfrom\nglobal\nis\nlambda\nnonlocal\nnot\nor\npass\nraise\nNone\nTrue\nFalse\nalign-content\nalign-items\nanimation\nappearance\naspect-ratio\nbackground\nbackground-color\nbackground-image\nborder\nborder-radius\nborder-spacing\nbox-shadow\nbox-sizing\ncaret-color\nclear\nclip-path\ncolor\ncolumn-count\ncolumn-gap\ncolumn-rule\ncolumns\ncontain\ncounter-increment\ncounter-reset\ncursor\ndirection\ndisplay\nempty-cells\nfilter\nflex\nflex-basis\nflex-direction\nflex-flow\nflex-grow\nflex-shrink\nflex-wrap\nfont-family\nfont-size\nfont-style\nfont-variant\nfont-weight\ngap\ngrid\ngrid-area\ngrid-column\ngrid-row\ngrid-template\nheight\nhyphens\nisolation\njustify-content\njustify-items\nleft\nletter-spacing\nline-height\nlist-style\nmargin\nmax-height\nmax-width\nmin-height\nmin-width\nmix-blend-mode\nobject-fit\nobject-position\nopacity\norder\norphans\noutline\noverflow\npadding\npage\nperspective\nplace-content\npointer-events\nposition\nquotes\nresize\nright\nrotate\nrow-gap\nscale\nscroll-behavior\ntab-size\ntable-layout\ntext-align\ntext-decoration\ntext-indent\ntext-overflow\ntext-shadow\ntext-transform\ntop\ntransform\ntransition\ntranslate\nunicode-bidi\nvertical-align\nvisibility\nwhite-space\nwidows\nwidth\nword-break\nword-spacing\nwriting-mode\nz-index";

/// The word of each of them.
#[cfg(test)]
#[rattlefmt::skip]
static NAMES_WORDS: [u64; 393] = [
    Names::A, Names::ABBR, Names::ACRONYM, Names::ADDRESS, Names::APPLET, Names::AREA,
    Names::ARTICLE, Names::ASIDE, Names::AUDIO, Names::B, Names::BASE, Names::BASEFONT, Names::BDI,
    Names::BDO, Names::BGSOUND, Names::BIG, Names::BLINK, Names::BLOCKQUOTE, Names::BODY,
    Names::BR, Names::BUTTON, Names::CANVAS, Names::CAPTION, Names::CENTER, Names::CITE,
    Names::CODE, Names::COL, Names::COLGROUP, Names::COMMAND, Names::CONTENT, Names::DATA,
    Names::DATALIST, Names::DD, Names::DEL, Names::DETAILS, Names::DFN, Names::DIALOG, Names::DIR,
    Names::DIV, Names::DL, Names::DT, Names::ELEMENT, Names::EM, Names::EMBED, Names::FIELDSET,
    Names::FIGCAPTION, Names::FIGURE, Names::FONT, Names::FOOTER, Names::FORM, Names::FRAME,
    Names::FRAMESET, Names::H1, Names::H2, Names::H3, Names::H4, Names::H5, Names::H6, Names::HEAD,
    Names::HEADER, Names::HGROUP, Names::HR, Names::HTML, Names::I, Names::IFRAME, Names::IMAGE,
    Names::IMG, Names::INPUT, Names::INS, Names::ISINDEX, Names::KBD, Names::KEYGEN, Names::LABEL,
    Names::LEGEND, Names::LI, Names::LINK, Names::LISTING, Names::MAIN, Names::MAP, Names::MARK,
    Names::MARQUEE, Names::MATH, Names::MENU, Names::MENUITEM, Names::META, Names::METER,
    Names::MULTICOL, Names::NAV, Names::NEXTID, Names::NOBR, Names::NOEMBED, Names::NOFRAMES,
    Names::NOSCRIPT, Names::OBJECT, Names::OL, Names::OPTGROUP, Names::OPTION, Names::OUTPUT,
    Names::P, Names::PARAM, Names::PICTURE, Names::PLAINTEXT, Names::PORTAL, Names::PRE,
    Names::PROGRESS, Names::Q, Names::RB, Names::RP, Names::RT, Names::RTC, Names::RUBY, Names::S,
    Names::SAMP, Names::SCRIPT, Names::SEARCH, Names::SECTION, Names::SELECT, Names::SHADOW,
    Names::SLOT, Names::SMALL, Names::SOURCE, Names::SPACER, Names::SPAN, Names::STRIKE,
    Names::STRONG, Names::STYLE, Names::SUB, Names::SUMMARY, Names::SUP, Names::SVG, Names::TABLE,
    Names::TBODY, Names::TD, Names::TEMPLATE, Names::TEXTAREA, Names::TFOOT, Names::TH,
    Names::THEAD, Names::TIME, Names::TITLE, Names::TR, Names::TRACK, Names::TT, Names::U,
    Names::UL, Names::VAR, Names::VIDEO, Names::WBR, Names::XMP, Names::AS, Names::BREAK,
    Names::CONST, Names::CONTINUE, Names::CRATE, Names::ELSE, Names::ENUM, Names::EXTERN,
    Names::FALSE, Names::FN, Names::FOR, Names::IF, Names::IMPL, Names::IN, Names::LET,
    Names::LOOP, Names::MATCH, Names::MOD, Names::MOVE, Names::MUT, Names::PUB, Names::REF,
    Names::RETURN, Names::SELF, Names::STATIC, Names::STRUCT, Names::SUPER, Names::TRAIT,
    Names::TRUE, Names::TYPE, Names::UNSAFE, Names::USE, Names::WHERE, Names::WHILE, Names::ASYNC,
    Names::AWAIT, Names::DYN, Names::ABSTRACT, Names::BECOME, Names::BOX, Names::DO, Names::FINAL,
    Names::MACRO, Names::OVERRIDE, Names::PRIV, Names::TYPEOF, Names::UNSIZED, Names::VIRTUAL,
    Names::YIELD, Names::TRY, Names::UNION, Names::AUTO, Names::CASE, Names::CHAR, Names::DEFAULT,
    Names::DOUBLE, Names::FLOAT, Names::GOTO, Names::INLINE, Names::INT, Names::LONG,
    Names::REGISTER, Names::RESTRICT, Names::SHORT, Names::SIGNED, Names::SIZEOF, Names::SWITCH,
    Names::TYPEDEF, Names::UNSIGNED, Names::VOID, Names::VOLATILE, Names::ALIGNAS, Names::ALIGNOF,
    Names::BOOL, Names::CONSTEXPR, Names::NULLPTR, Names::STATIC_ASSERT, Names::THREAD_LOCAL,
    Names::TYPEOF_UNQUAL, Names::ASSERT, Names::BOOLEAN, Names::BYTE, Names::CATCH, Names::CLASS,
    Names::EXTENDS, Names::FINALLY, Names::IMPLEMENTS, Names::IMPORT, Names::INSTANCEOF,
    Names::INTERFACE, Names::NATIVE, Names::NEW, Names::PACKAGE, Names::PRIVATE, Names::PROTECTED,
    Names::PUBLIC, Names::STRICTFP, Names::SYNCHRONIZED, Names::THIS, Names::THROW, Names::THROWS,
    Names::TRANSIENT, Names::EXPORTS, Names::MODULE, Names::OPENS, Names::PERMITS, Names::PROVIDES,
    Names::RECORD, Names::REQUIRES, Names::SEALED, Names::TRANSITIVE, Names::WHEN, Names::WITH,
    Names::ARGUMENTS, Names::DEBUGGER, Names::DELETE, Names::EVAL, Names::EXPORT, Names::FUNCTION,
    Names::GET, Names::NULL, Names::OF, Names::SET, Names::UNDEFINED, Names::AND, Names::DEF,
    Names::ELIF, Names::EXCEPT, Names::FROM, Names::GLOBAL, Names::IS, Names::LAMBDA,
    Names::NONLOCAL, Names::NOT, Names::OR, Names::PASS, Names::RAISE, Names::NONE,
    Names::PYTHON_TRUE, Names::PYTHON_FALSE, Names::ALIGN_CONTENT, Names::ALIGN_ITEMS,
    Names::ANIMATION, Names::APPEARANCE, Names::ASPECT_RATIO, Names::BACKGROUND,
    Names::BACKGROUND_COLOR, Names::BACKGROUND_IMAGE, Names::BORDER, Names::BORDER_RADIUS,
    Names::BORDER_SPACING, Names::BOX_SHADOW, Names::BOX_SIZING, Names::CARET_COLOR, Names::CLEAR,
    Names::CLIP_PATH, Names::COLOR, Names::COLUMN_COUNT, Names::COLUMN_GAP, Names::COLUMN_RULE,
    Names::COLUMNS, Names::CONTAIN, Names::COUNTER_INCREMENT, Names::COUNTER_RESET, Names::CURSOR,
    Names::DIRECTION, Names::DISPLAY, Names::EMPTY_CELLS, Names::FILTER, Names::FLEX,
    Names::FLEX_BASIS, Names::FLEX_DIRECTION, Names::FLEX_FLOW, Names::FLEX_GROW,
    Names::FLEX_SHRINK, Names::FLEX_WRAP, Names::FONT_FAMILY, Names::FONT_SIZE, Names::FONT_STYLE,
    Names::FONT_VARIANT, Names::FONT_WEIGHT, Names::GAP, Names::GRID, Names::GRID_AREA,
    Names::GRID_COLUMN, Names::GRID_ROW, Names::GRID_TEMPLATE, Names::HEIGHT, Names::HYPHENS,
    Names::ISOLATION, Names::JUSTIFY_CONTENT, Names::JUSTIFY_ITEMS, Names::LEFT,
    Names::LETTER_SPACING, Names::LINE_HEIGHT, Names::LIST_STYLE, Names::MARGIN, Names::MAX_HEIGHT,
    Names::MAX_WIDTH, Names::MIN_HEIGHT, Names::MIN_WIDTH, Names::MIX_BLEND_MODE,
    Names::OBJECT_FIT, Names::OBJECT_POSITION, Names::OPACITY, Names::ORDER, Names::ORPHANS,
    Names::OUTLINE, Names::OVERFLOW, Names::PADDING, Names::PAGE, Names::PERSPECTIVE,
    Names::PLACE_CONTENT, Names::POINTER_EVENTS, Names::POSITION, Names::QUOTES, Names::RESIZE,
    Names::RIGHT, Names::ROTATE, Names::ROW_GAP, Names::SCALE, Names::SCROLL_BEHAVIOR,
    Names::TAB_SIZE, Names::TABLE_LAYOUT, Names::TEXT_ALIGN, Names::TEXT_DECORATION,
    Names::TEXT_INDENT, Names::TEXT_OVERFLOW, Names::TEXT_SHADOW, Names::TEXT_TRANSFORM,
    Names::TOP, Names::TRANSFORM, Names::TRANSITION, Names::TRANSLATE, Names::UNICODE_BIDI,
    Names::VERTICAL_ALIGN, Names::VISIBILITY, Names::WHITE_SPACE, Names::WIDOWS, Names::WIDTH,
    Names::WORD_BREAK, Names::WORD_SPACING, Names::WRITING_MODE, Names::Z_INDEX,
];

/// The word of a static text.
#[cfg(test)]
fn static_word<S: StaticTables>(text: &str) -> Option<u64> {
    Some(Atom::<S>::try_static(text)?.unsafe_data())
}

/// The word of a text that is inline or static.
#[cfg(test)]
fn word_of<S: StaticTables>(text: &str) -> Option<u64> {
    match pack_inline_word(text) {
        Some(word) => Some(word),
        None => static_word::<S>(text),
    }
}

/// Each text is at its place, and each name is found and has its word.
#[test]
fn names_are_found(rt: HostRuntime) {
    assert!(rt; are_perfect::<Names>());
    for (text, word) in NAMES_LIST.split('\n').zip(&NAMES_WORDS) {
        assert!(rt; word_of::<Names>(text) == Some(*word), "of {text}");
    }
}
